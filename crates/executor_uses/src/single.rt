//! One job, by any worker in a thread of its own.

ghost use Rattle.std.specs.Prelude.{IfOk};

use bounded_executor::{Worker, close_desk, open_desk};
use std::alloc::{AllocError, Global};
use std::sync::Wait;
use std::thread::Threads;

/// What a worker in a thread of its own makes of a job, and the worker afterwards. Where memory ran out, the only error,
/// nothing is carried.
pub fn carried_apart<R, W>(
    rt: &R,
    alloc: Global,
    worker: W,
    job: W::Job,
) -> Result<(W, W::Done), AllocError>
where
    R: Threads + Wait + Clone + Send + Drop + 'static,
    W: Worker + Drop + 'static,
    W::Job: Drop + 'static,
    W::Done: Drop + 'static,
    ensures { IfOk result (λ made. W.carries worker job made.1 made.0) }
{
    let mut workers = Vec::new(alloc);
    workers.push(worker)?;
    let mut desk = open_desk(rt, alloc, &mut workers, 1)?;
    let _ = desk.give(0, job);
    let (_, done) = desk.take(rt);
    close_desk(rt, alloc, desk, &mut workers);
    let Some(worker) = workers.pop() else {
        unreachable!()
    };
    Ok((worker, done))
}
