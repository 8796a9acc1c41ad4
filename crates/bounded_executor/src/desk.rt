//! The desk, at which jobs are given and outcomes taken.

use crate::lane::Lane;
use crate::ready::ReadyLanes;
use crate::worker::Worker;
use std::marker::Model;
use std::sync::{Arc, Wait};
use std::thread::Threads;

/// Lanes of jobs, each with a worker behind it. A lane holds at most `depth` jobs that were given and not taken back.
///
/// Contracts see the depth, the workers as they were before, and for each lane the list of the jobs given and the list of
/// the outcomes taken.
pub struct Desk<W: Worker> {
    depth: u32,
    // How many jobs were given and not taken back.
    out: u32,
    lanes: Vec<Lane<W>>,
    // Whether a lane has no thread.
    carries: bool,
    ready: Arc<ReadyLanes>,
}

impl<W: Worker> Model for Desk<W> {
    ghost use Rattle.bounded_executor.specs.Desk.{DeskState, desk_of, IsDesk};

    ghost Value = { DeskState W W.Job W.Done };

    ghost view = { λ d. desk_of d.depth d.lanes.items };

    ghost invariant = { λ d. IsDesk d.depth d.out d.lanes.items };
}

impl<W: Worker> Desk<W> {
    pub(crate) fn new(depth: u32, lanes: Vec<Lane<W>>, ready: Arc<ReadyLanes>) -> Desk<W>
        requires { IsDesk depth 0 lanes.items }
        ensures { result ≡ desk_of depth lanes.items }
    {
        let carries = any_is_here(&lanes);
        Desk {
            depth,
            out: 0,
            lanes,
            carries,
            ready,
        }
    }

    // Ends the lanes' threads, and gives the workers back in order. The list of workers has the room already.
    pub(crate) fn finish<R: Threads>(self, rt: &R, workers: Vec<W>) -> Vec<W>
        requires none_out { all_out self ≡ 0 }
        requires room { (workers.items ≡ []) × (length self.workers ≤ vec_capacity workers) }
        ensures { EachRuns W.carries self.workers self.lanes result.items }
    {
        let Desk {
            depth: _,
            out: _,
            lanes,
            carries: _,
            ready: _,
        } = self;
        close_all(&lanes);
        let mut workers = workers;
        for lane in lanes {
            workers.push_reserved(lane.finish(rt));
        }
        workers
    }

    ghost use Rattle.std.specs.Prelude.{
      ◌≡◌,
      ◌+◌,
      ◌<◌,
      ◌≤◌,
      ◌↔◌,
      [],
      length,
      true,
      false,
      vec_capacity,
      IsErr,
      IfErr,
      OnErr,
      OnOk,
      IfSome,
      IfNone,
    };
    ghost use Rattle.bounded_executor.specs.Exchange.{jobs_out};
    ghost use Rattle.bounded_executor.specs.Desk.{lane_of, all_out, gives, takes, TookOne, desk_of, IsDesk};
    ghost use Rattle.bounded_executor.specs.Runs.{EachRuns};

    /// Gives a job to a lane, behind the jobs given before. It comes back where the lane holds `depth` jobs.
    pub fn give(&mut self, lane: u32, job: W::Job) -> Result<(), W::Job>
        requires { lane < length self.old.lanes }
        ensures refused { IsErr result ↔ (jobs_out (lane_of self.old lane) ≡ self.old.depth) }
        ensures back { IfErr result (λ back. back ≡ job) }
        ensures err { OnErr result (self.new ≡ self.old) }
        ensures ok { OnOk result (self.new ≡ gives self.old lane job) }
        ensures one_more { OnOk result (all_out self.new ≡ all_out self.old + 1) }
    {
        if self.is_full(lane) {
            return Err(job);
        }
        self.lanes[lane as usize].give(job);
        self.out += 1;
        Ok(())
    }

    /// Takes an outcome back, of any lane with a job out, and waits until there is one. The outcomes of one lane come in the
    /// order of its jobs. Where no thread could be started for a lane, its job is carried here, the lowest such lane first.
    pub fn take<R: Wait>(&mut self, rt: &R) -> (u32, W::Done)
        requires { 0 < all_out self.old }
        ensures lane { result.0 < length self.old.lanes }
        ensures was_out { 0 < jobs_out (lane_of self.old result.0) }
        ensures taken { self.new ≡ takes self.old result.0 result.1 }
        ensures one_less { all_out self.new + 1 ≡ all_out self.old }
    {
        for _ in rt.forever() {
            if let Some(taken) = self.collect() {
                return taken;
            }
            if let Some(taken) = self.carry() {
                return taken;
            }
            self.ready.wait(rt);
        }
        unreachable!()
    }

    // An outcome that has come from a thread. Lanes take turns.
    fn collect(&mut self) -> Option<(u32, W::Done)>
        ensures taken { IfSome result (λ r. TookOne self.old r.0 r.1 self.new) }
        ensures none { IfNone result (self.new ≡ self.old) }
    {
        for _look in 0..self.lanes() {
            let Some(lane) = self.ready.next() else {
                return None;
            };
            if lane >= self.lanes() {
                return None;
            }
            if let Some(done) = self.take_ready(lane) {
                return Some((lane, done));
            }
        }
        None
    }

    // Carries a job of the lowest lane that has a job out and no thread.
    fn carry(&mut self) -> Option<(u32, W::Done)>
        ensures taken { IfSome result (λ r. TookOne self.old r.0 r.1 self.new) }
        ensures none { IfNone result (self.new ≡ self.old) }
    {
        if !self.carries {
            return None;
        }
        for lane in 0..self.lanes() {
            if let Some(done) = self.take_of(lane) {
                return Some((lane, done));
            }
        }
        None
    }

    // The mark goes when no outcome is there, and before the last look, so that none is missed.
    fn take_ready(&mut self, lane: u32) -> Option<W::Done>
        requires { lane < length self.old.lanes }
        ensures taken { IfSome result (λ done. TookOne self.old lane done self.new) }
        ensures none { IfNone result (self.new ≡ self.old) }
    {
        if let Some(done) = self.take_of(lane) {
            return Some(done);
        }
        self.ready.unmark(lane as usize);
        self.take_of(lane)
    }

    // An outcome of this lane, if there is one, or if its job is carried here.
    fn take_of(&mut self, lane: u32) -> Option<W::Done>
        requires { lane < length self.old.lanes }
        ensures taken { IfSome result (λ done. TookOne self.old lane done self.new) }
        ensures none { IfNone result (self.new ≡ self.old) }
    {
        let slot = &mut self.lanes[lane as usize];
        let Some(done) = slot.take() else {
            return None;
        };
        self.out -= 1;
        Some(done)
    }

    /// How many jobs are out: given and not taken back.
    pub fn out(&self) -> u32
        ensures { result ≡ all_out self.now }
    {
        self.out
    }

    // Whether the lane holds `depth` jobs.
    fn is_full(&self, lane: u32) -> bool
        requires { lane < length self.now.lanes }
        ensures full { result ≡ true → jobs_out (lane_of self.now lane) ≡ self.now.depth }
        ensures room { result ≡ false → jobs_out (lane_of self.now lane) < self.now.depth }
    {
        self.room(lane) == 0
    }

    /// How many jobs the lane takes until outcomes are taken back.
    pub fn room(&self, lane: u32) -> u32
        requires { lane < length self.now.lanes }
        ensures { result + jobs_out (lane_of self.now lane) ≡ self.now.depth }
    {
        self.lanes[lane as usize].room()
    }

    /// How many lanes there are.
    pub fn lanes(&self) -> u32
        ensures { result ≡ length self.now.lanes }
    {
        self.lanes.len() as u32
    }
}

fn any_is_here<W: Worker>(lanes: &[Lane<W>]) -> bool {
    for lane in lanes {
        if lane.is_here() {
            return true;
        }
    }
    false
}

// Tells the threads of the lanes that no job comes any more.
fn close_all<W: Worker>(lanes: &[Lane<W>]) {
    for lane in lanes {
        lane.close();
    }
}
