//! Jobs in a row.

ghost use Rattle.std.specs.Prelude.{◌≡◌, ◌<◌, ◌++◌, ◌∷◌, [], IfOk, drop, length, slice_get};

use s3_model::{JobId, OutOfMemory};
use std::alloc::Global;
use std::collections::VecDeque;
use std::marker::Model;

/// Jobs in a row, the oldest first, with room for so many.
#[derive(Drop)]
pub(crate) struct JobQueue {
    jobs: VecDeque<JobId>,
    room: usize,
}

impl Model for JobQueue {
    ghost use Rattle.std.specs.Prelude.{◌≤◌};
    ghost use Rattle.std.specs.VecDeque.{deque_capacity};
    ghost use Rattle.lane_queues.specs.Lanes.{SeenQueue};

    ghost Value = { SeenQueue };

    ghost view = { λ q. record { row = q.jobs.items; room = q.room } };

    ghost invariant = { λ q. q.room ≤ deque_capacity q.jobs };
}

impl JobQueue {
    /// No jobs, with room for so many.
    pub(crate) fn make(alloc: Global, room: usize) -> Result<JobQueue, OutOfMemory>
        ensures { IfOk result (λ queue. queue ≡ record { row = []; room = room }) }
    {
        let jobs = VecDeque::with_capacity(alloc, room)?;
        Ok(JobQueue { jobs, room })
    }

    /// Puts a job behind the others, without memory.
    pub(crate) fn push(&mut self, job: JobId)
        requires { length self.old.row < self.old.room }
        ensures { self.new ≡ record { row = self.old.row ++ job ∷ []; room = self.old.room } }
    {
        self.jobs.push_back_reserved(job);
    }

    /// Takes the oldest job out.
    pub(crate) fn pop(&mut self) -> Option<JobId>
        ensures job { result ≡ slice_get self.old.row 0 }
        ensures rest { self.new ≡ record { row = drop 1 self.old.row; room = self.old.room } }
    {
        self.jobs.pop_front()
    }

    /// The oldest job.
    pub(crate) fn oldest(&self) -> Option<JobId>
        ensures { result ≡ slice_get self.now.row 0 }
    {
        self.jobs.front().copied()
    }
}
