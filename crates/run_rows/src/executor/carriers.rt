//! Workers that double, and what takes their outcomes back.

ghost use Rattle.std.specs.Prelude.{◌≡◌, ◌*◌, IfOk, vec_len};
ghost use Rattle.bounded_executor.specs.Desk.{SameDesk, all_out};

use bounded_executor::{Desk, Worker};
use std::alloc::{AllocError, Global};
use std::sync::Wait;

/// Keeps each job, and answers it doubled.
#[derive(Drop)]
pub(crate) struct Doubler {
    pub(crate) seen: Vec<u32>,
}

impl Worker for Doubler {
    type Job = u32;

    type Done = u64;

    ghost carries = { λ before job done after. done ≡ 2 * job };

    fn carry(&mut self, job: u32) -> u64 {
        let _ = self.seen.push(job);
        2 * u64::from(job)
    }
}

pub(crate) fn doublers(alloc: Global, count: u32) -> Result<Vec<Doubler>, AllocError>
    ensures { IfOk result (λ workers. vec_len workers ≡ count) }
{
    let mut workers = Vec::new(alloc);
    for _made in 0..count {
        workers.push(Doubler {
            seen: Vec::new(alloc),
        })?;
    }
    Ok(workers)
}

/// Takes an outcome, if a job is out, with the number of its lane.
pub(crate) fn take_one<R: Wait, W: Worker>(
    rt: &R,
    desk: &mut Desk<W>,
    taken: &mut Vec<(u32, W::Done)>,
)
    ensures { SameDesk desk.old desk.new }
{
    if desk.out() > 0 {
        let _ = taken.push(desk.take(rt));
    }
}

pub(crate) fn take_all<R: Wait, W: Worker>(
    rt: &R,
    desk: &mut Desk<W>,
    taken: &mut Vec<(u32, W::Done)>,
)
    ensures same_desk { SameDesk desk.old desk.new }
    ensures none_out { all_out desk.new ≡ 0 }
{
    for _ in rt.forever() {
        if desk.out() == 0 {
            return;
        }
        take_one(rt, desk, taken);
    }
}
