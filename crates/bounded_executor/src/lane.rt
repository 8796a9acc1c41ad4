//! One lane, with its worker on a thread or beside the desk.

ghost use Rattle.std.specs.Prelude.{◌≡◌, ◌<◌};

use crate::bell::Bell;
use crate::beside::{pass_through, pop_beside};
use crate::outbox::Outbox;
use crate::station::{Opened, Station};
use crate::worker::Worker;
use rtrb::Consumer;
use std::marker::Model;
use std::snapshot::Snapshot;
use std::sync::Arc;
use std::thread::{PromisedHandle, Threads};

// Who carries the jobs of a lane: a thread, or the desk itself where none could be started.
#[derive(Drop)]
pub(crate) enum Crew<W: Worker> {
    Away(PromisedHandle<Station<W>, Opened<W>>),
    Here(Station<W>),
}

// The desk's side of a lane.
#[derive(Drop)]
pub(crate) struct Lane<W: Worker> {
    pub(crate) depth: u32,
    // How many jobs were given and not taken back.
    pub(crate) out: u32,
    pub(crate) outbox: Outbox<W::Job>,
    pub(crate) outcomes: Consumer<W::Done>,
    pub(crate) bell: Arc<Bell>,
    pub(crate) crew: Crew<W>,
    pub(crate) start: Snapshot<W>,
}

impl<W: Worker> Model for Lane<W> {
    ghost use Rattle.std.specs.Prelude.{◌++◌};
    ghost use Rattle.rtrb.specs.Ring.{received};
    ghost use Rattle.bounded_executor.specs.Lane.{LaneState, IsCounted};

    ghost Value = { LaneState W W.Job W.Done };

    ghost use Rattle.bounded_executor.specs.Outbox.{jobs_given};
    ghost use Rattle.bounded_executor.specs.Crew.{IsCrewOf};

    ghost view = { λ l. record {
      depth = l.depth;
      worker = l.start.value;
      exchange = record { given = jobs_given l.outbox; taken = received l.outcomes };
    } };

    ghost invariant = { λ l. IsCounted l.depth l.out l.outbox l.outcomes
        × IsCrewOf W.carries l.depth l.start.value l.outbox.ring l.outcomes l.crew };
}

impl<W: Worker> Lane<W> {
    ghost use Rattle.std.specs.Prelude.{◌≡◌, ◌<◌, ◌+◌, length, IfSome, IfNone};
    ghost use Rattle.bounded_executor.specs.Exchange.{jobs_out, with_given, with_taken};
    ghost use Rattle.bounded_executor.specs.Runs.{Runs};

    pub(crate) fn room(&self) -> u32
        ensures { result + jobs_out self.now.exchange ≡ self.now.depth }
    {
        self.depth - self.out
    }

    pub(crate) fn give(&mut self, job: W::Job)
        requires { jobs_out self.old.exchange < self.old.depth }
        ensures given { self.new ≡ record self.old { exchange = with_given self.old.exchange job } }
        ensures one_more { jobs_out self.new.exchange ≡ jobs_out self.old.exchange + 1 }
    {
        self.outbox.add(job);
        self.out += 1;
        self.bell.ring();
    }

    // Moves jobs that wait into the ring.
    fn push_waiting(&mut self)
        ensures { self.new ≡ self.old }
    {
        if self.outbox.waiting.is_empty() {
            return;
        }
        self.outbox.flush();
        self.bell.ring();
    }

    // An outcome that has come, or that of a job carried here.
    pub(crate) fn take(&mut self) -> Option<W::Done>
        ensures some { IfSome result (λ done. self.new ≡ record self.old
            { exchange = with_taken self.old.exchange done }) }
        ensures was_out { IfSome result (λ _. 0 < jobs_out self.old.exchange) }
        ensures none { IfNone result (self.new ≡ self.old) }
    {
        match &self.crew {
            Crew::Away(_) => self.collect(),
            Crew::Here(_) => self.carry(),
        }
    }

    // An outcome that has come from the lane's thread, if there is one.
    fn collect(&mut self) -> Option<W::Done>
        ensures some { IfSome result (λ done. self.new ≡ record self.old
            { exchange = with_taken self.old.exchange done }) }
        ensures was_out { IfSome result (λ _. 0 < jobs_out self.old.exchange) }
        ensures none { IfNone result (self.new ≡ self.old) }
    {
        self.push_waiting();
        let Crew::Away(_) = &self.crew else {
            return None;
        };
        if self.outbox.waiting.len() >= self.out as usize {
            return None;
        }
        let Ok(done) = self.outcomes.pop() else {
            return None;
        };
        self.out -= 1;
        Some(done)
    }

    // Carries the oldest job here, where no thread does, and takes its outcome.
    fn carry(&mut self) -> Option<W::Done>
        ensures some { IfSome result (λ done. self.new ≡ record self.old
            { exchange = with_taken self.old.exchange done }) }
        ensures was_out { IfSome result (λ _. 0 < jobs_out self.old.exchange) }
        ensures none { IfNone result (self.new ≡ self.old) }
    {
        if self.out == 0 {
            return None;
        }
        if let Crew::Here(station) = &mut self.crew {
            let job = pop_beside(&mut self.outbox, &mut station.jobs);
            let done = station.worker.carry(job);
            let done = pass_through(&mut station.outcomes, &mut self.outcomes, done);
            self.out -= 1;
            return Some(done);
        }
        None
    }

    // Whether the lane has no thread.
    pub(crate) fn is_here(&self) -> bool {
        matches!(&self.crew, Crew::Here(_))
    }

    // Tells the lane's thread that no job comes any more.
    pub(crate) fn close(&self) {
        self.bell.close();
    }

    // The worker, once all outcomes were taken. It waits for the lane's thread, which must be told to end.
    pub(crate) fn finish<R: Threads>(self, rt: &R) -> W
        requires { jobs_out self.exchange ≡ 0 }
        ensures { Runs W.carries self.worker self.exchange.given self.exchange.taken result }
    {
        let Lane {
            depth: _,
            out: _,
            mut outbox,
            mut outcomes,
            bell: _,
            crew,
            start: _,
        } = self;
        let mut station = match crew {
            Crew::Away(thread) => thread.join(rt),
            Crew::Here(station) => station,
        };
        station.jobs.slots_beside(&mut outbox.ring);
        outcomes.slots_beside(&mut station.outcomes);
        station.worker
    }
}
