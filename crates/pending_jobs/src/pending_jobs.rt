//! The jobs that are out in each lane.

ghost use Rattle.std.specs.Prelude.{◌≡◌, ◌<◌, ◌≤◌, ◌↔◌, ◌++◌, ◌∷◌, [], IfOk, drop, length, replicate, slice_get, true};
ghost use Rattle.std.specs.VecDeque.{deque_capacity};
ghost use Rattle.pending_jobs.specs.Pending.{IsOldestBack, out_of, pending_of, with_out};

use crate::pending::Pending;
use jobs::{Carried, Job};
use s3_model::OutOfMemory;
use std::alloc::Global;
use std::collections::VecDeque;
use std::marker::Model;

/// The jobs of a lane, the oldest first.
#[derive(Drop)]
struct Row {
    jobs: VecDeque<Pending>,
}

/// For each lane the jobs that are out in it, the oldest first, at most `depth` of them. No call but `make` takes
/// memory, and none goes over the lanes or over the jobs of one.
#[derive(Drop)]
pub struct PendingJobs {
    depth: usize,
    rows: Vec<Row>,
}

impl Model for PendingJobs {
    ghost use Rattle.pending_jobs.specs.Rows.{IsSound, jobs_of};
    ghost use Rattle.pending_jobs.specs.Pending.{SeenPendingJobs};

    ghost Value = { SeenPendingJobs };

    ghost view = { λ p. record { depth = p.depth; lanes = jobs_of p.rows.items } };

    ghost invariant = { λ p. IsSound p.depth p.rows.items };
}

impl Row {
    /// No jobs, with room for so many.
    fn empty(alloc: Global, room: usize) -> Result<Row, OutOfMemory>
        ensures none { IfOk result (λ row. row.jobs.items ≡ []) }
        ensures room { IfOk result (λ row. room ≤ deque_capacity row.jobs) }
    {
        Ok(Row {
            jobs: VecDeque::with_capacity(alloc, room)?,
        })
    }
}

impl PendingJobs {
    /// So many lanes, with no job out and at most `depth` in each. It takes all the memory of the lanes.
    pub fn make(alloc: Global, lanes: u32, depth: u32) -> Result<PendingJobs, OutOfMemory>
        ensures { IfOk result (λ made. made ≡ record { depth = depth; lanes = replicate lanes [] }) }
    {
        let depth = depth as usize;
        let mut rows = Vec::with_capacity(alloc, lanes as usize)?;
        for _ in 0..lanes {
            rows.push(Row::empty(alloc, depth)?)?;
        }
        Ok(PendingJobs { depth, rows })
    }

    /// A job goes to a lane that has room.
    pub fn push(&mut self, lane: u32, job: &Job)
        requires lane { lane < length self.old.lanes }
        requires room { length (out_of self.old lane) < self.old.depth }
        ensures { self.new ≡ with_out self.old lane (out_of self.old lane ++ pending_of job.now ∷ []) }
    {
        self.rows[lane as usize]
            .jobs
            .push_back_reserved(Pending::of(job));
    }

    /// Whether the job that came back can be the oldest of its lane.
    pub fn is_oldest(&self, lane: u32, carried: &Carried) -> bool
        requires { lane < length self.now.lanes }
        ensures { (result ≡ true) ↔ IsOldestBack self.now lane carried.now.job }
    {
        match self.rows[lane as usize].jobs.front() {
            Some(oldest) => oldest.is_back(carried),
            None => false,
        }
    }

    /// The oldest job of a lane is out no longer.
    pub fn pop(&mut self, lane: u32)
        requires { lane < length self.old.lanes }
        ensures { self.new ≡ with_out self.old lane (drop 1 (out_of self.old lane)) }
    {
        let _ = self.rows[lane as usize].jobs.pop_front();
    }
}
