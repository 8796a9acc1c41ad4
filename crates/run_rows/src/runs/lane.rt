//! A lane that carries nothing.

ghost use Rattle.std.specs.Prelude.{◌≡◌, ◌++◌, ◌<◌, [], ◌∷◌, OnOk, drop, get_or, length, set, slice_get};

use jobs::Job;
use s3_model::{JobId, OutOfMemory};
use std::alloc::Global;
use std::collections::VecDeque;
use std::marker::Model;

/// The jobs that were given to a lane and have not come back, the oldest first.
#[derive(Drop)]
pub(crate) struct Lane {
    jobs: VecDeque<Job>,
}

impl Model for Lane {
    ghost use Rattle.std.specs.Prelude.{List};
    ghost use Rattle.jobs.specs.Jobs.{SeenJob};

    ghost Value = { List SeenJob };

    ghost view = { λ l. l.jobs.items };
}

impl Lane {
    pub(crate) fn empty(alloc: Global) -> Lane
        ensures { result ≡ [] }
    {
        Lane {
            jobs: VecDeque::new(alloc),
        }
    }

    pub(crate) fn is_empty(&self) -> bool {
        self.jobs.is_empty()
    }

    pub(crate) fn push(&mut self, job: Job) -> Result<(), OutOfMemory>
        ensures { OnOk result (self.new ≡ self.old ++ job ∷ []) }
    {
        self.jobs.push_back(job)?;
        Ok(())
    }

    pub(crate) fn oldest(&self) -> Option<JobId> {
        Some(self.jobs.front()?.id)
    }

    /// Takes the oldest job out.
    pub(crate) fn take(&mut self) -> Option<Job>
        ensures job { result ≡ slice_get self.old 0 }
        ensures rest { self.new ≡ drop 1 self.old }
    {
        self.jobs.pop_front()
    }
}

/// The oldest job of a lane.
pub(crate) fn oldest_in(lanes: &[Lane], lane: u32) -> Option<JobId> {
    lanes.get(lane as usize)?.oldest()
}

/// The first lane that has a job out.
pub(crate) fn first_in_use(lanes: &[Lane]) -> Option<u32> {
    let mut number = 0u32;
    for lane in lanes {
        if !lane.is_empty() {
            return Some(number);
        }
        number = number.checked_add(1)?;
    }
    None
}

/// A job goes to a lane.
pub(crate) fn push_to(lanes: &mut Vec<Lane>, lane: u32, job: Job) -> Result<(), OutOfMemory>
    requires { lane < length lanes.old.items }
    ensures { OnOk result (lanes.new.items ≡ set lanes.old.items lane (get_or lanes.old.items lane [] ++ job ∷ [])) }
{
    lanes[lane as usize].push(job)
}

/// The oldest job of a lane is taken out.
pub(crate) fn take_from(lanes: &mut Vec<Lane>, lane: u32) -> Option<Job>
    requires { lane < length lanes.old.items }
    ensures job { result ≡ slice_get (get_or lanes.old.items lane []) 0 }
    ensures rest { lanes.new.items ≡ set lanes.old.items lane (drop 1 (get_or lanes.old.items lane [])) }
{
    lanes[lane as usize].take()
}
