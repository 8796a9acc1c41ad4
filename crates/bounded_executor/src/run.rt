//! A desk is opened over workers, directed, and closed.

ghost use Rattle.std.specs.Prelude.{◌≡◌, ◌≤◌, [], length, replicate, vec_len, vec_capacity, IfOk, OnOk, OnErr};
ghost use Rattle.bounded_executor.specs.Desk.{all_out};
ghost use Rattle.bounded_executor.specs.Exchange.{unused};
ghost use Rattle.bounded_executor.specs.Runs.{EachRuns};
ghost use Rattle.bounded_executor.specs.WholeRun.{HasRun};

use crate::boss::Boss;
use crate::desk::Desk;
use crate::lane::Lane;
use crate::open::open_lanes;
use crate::parts::{Parts, all_parts};
use crate::ready::ReadyLanes;
use crate::worker::Worker;
use std::alloc::{AllocError, Global};
use std::mem;
use std::sync::{Arc, Wait};
use std::thread::Threads;

/// Moves each worker into a thread of its own behind a lane, lets the boss direct them, and brings the workers back.
///
/// There are 1 to 65,535 workers, and a lane holds at most `depth` jobs, 1 to 64. Each worker stands in its place again,
/// also where memory ran out, the only error, which comes only before the boss begins. The jobs of a lane whose thread
/// could not be started are carried inside `Desk::take`.
pub fn with_workers<
    R: Threads + Wait + Clone + Send + Drop + 'static,
    W: Worker + 'static,
    B: Boss<W>,
>(rt: &R, alloc: Global, workers: &mut Vec<W>, depth: u32, boss: &mut B) -> Result<(), AllocError>
where
    W::Job: 'static,
    W::Done: 'static,
    requires lanes { (1 ≤ vec_len workers.old) × (vec_len workers.old ≤ 65535) }
    requires depth { (1 ≤ depth) × (depth ≤ 64) }
    requires boss { B.may_direct boss.old (vec_len workers.old) depth }
    ensures ok { OnOk result (HasRun W.carries B.directs workers.old.items boss.old workers.new.items boss.new) }
    ensures err { OnErr result ((workers.new.items ≡ workers.old.items) × (boss.new ≡ boss.old)) }
{
    run_lanes(rt, alloc, workers, depth, boss, None)
}

/// `with_workers`, over threads with stacks of this many bytes. Where no thread can have so large a stack, all jobs are
/// carried inside `Desk::take`.
pub fn with_stack_size<
    R: Threads + Wait + Clone + Send + Drop + 'static,
    W: Worker + 'static,
    B: Boss<W>,
>(
    rt: &R,
    alloc: Global,
    workers: &mut Vec<W>,
    depth: u32,
    boss: &mut B,
    stack_size: usize,
) -> Result<(), AllocError>
where
    W::Job: 'static,
    W::Done: 'static,
    requires lanes { (1 ≤ vec_len workers.old) × (vec_len workers.old ≤ 65535) }
    requires depth { (1 ≤ depth) × (depth ≤ 64) }
    requires boss { B.may_direct boss.old (vec_len workers.old) depth }
    ensures ok { OnOk result (HasRun W.carries B.directs workers.old.items boss.old workers.new.items boss.new) }
    ensures err { OnErr result ((workers.new.items ≡ workers.old.items) × (boss.new ≡ boss.old)) }
{
    run_lanes(rt, alloc, workers, depth, boss, Some(stack_size))
}

fn run_lanes<R: Threads + Wait + Clone + Send + Drop + 'static, W: Worker + 'static, B: Boss<W>>(
    rt: &R,
    alloc: Global,
    workers: &mut Vec<W>,
    depth: u32,
    boss: &mut B,
    stack_size: Option<usize>,
) -> Result<(), AllocError>
where
    W::Job: 'static,
    W::Done: 'static,
    requires lanes { (1 ≤ vec_len workers.old) × (vec_len workers.old ≤ 65535) }
    requires depth { (1 ≤ depth) × (depth ≤ 64) }
    requires boss { B.may_direct boss.old (vec_len workers.old) depth }
    ensures ok { OnOk result (HasRun W.carries B.directs workers.old.items boss.old workers.new.items boss.new) }
    ensures err { OnErr result ((workers.new.items ≡ workers.old.items) × (boss.new ≡ boss.old)) }
{
    match open_sized(rt, alloc, workers, depth, stack_size) {
        Ok(desk) => {
            let mut desk = desk;
            boss.direct(rt, &mut desk);
            close_desk(rt, alloc, desk, workers);
            Ok(())
        }
        Err(fault) => Err(fault),
    }
}

/// Moves each worker into a thread of its own behind a lane of a new desk: the first half of `with_workers`, for a caller
/// that gives the jobs by itself.
///
/// There are at most 65,535 workers, and a lane holds at most `depth` jobs, at most 64. `workers` is empty while the desk
/// is open, and keeps the room for them; `close_desk` puts each in its place again. Where memory ran out, the only error,
/// all stand there as before. The jobs of a lane whose thread could not be started are carried inside `Desk::take`.
pub fn open_desk<R: Threads + Wait + Clone + Send + Drop + 'static, W: Worker + 'static>(
    rt: &R,
    alloc: Global,
    workers: &mut Vec<W>,
    depth: u32,
) -> Result<Desk<W>, AllocError>
where
    W::Job: 'static,
    W::Done: 'static,
    requires lanes { vec_len workers.old ≤ 65535 }
    requires depth { depth ≤ 64 }
    ensures depth { IfOk result (λ desk. desk.depth ≡ depth) }
    ensures begun { IfOk result (λ desk. desk.workers ≡ workers.old.items) }
    ensures unused { IfOk result (λ desk. desk.lanes ≡ replicate (length workers.old.items) unused) }
    ensures none { IfOk result (λ desk. workers.new.items ≡ []) }
    ensures room { IfOk result (λ desk. length desk.workers ≤ vec_capacity workers.new) }
    ensures err { OnErr result (workers.new.items ≡ workers.old.items) }
{
    open_sized(rt, alloc, workers, depth, None)
}

fn open_sized<R: Threads + Wait + Clone + Send + Drop + 'static, W: Worker + 'static>(
    rt: &R,
    alloc: Global,
    workers: &mut Vec<W>,
    depth: u32,
    stack_size: Option<usize>,
) -> Result<Desk<W>, AllocError>
where
    W::Job: 'static,
    W::Done: 'static,
    requires lanes { vec_len workers.old ≤ 65535 }
    requires depth { depth ≤ 64 }
    ensures depth { IfOk result (λ desk. desk.depth ≡ depth) }
    ensures begun { IfOk result (λ desk. desk.workers ≡ workers.old.items) }
    ensures unused { IfOk result (λ desk. desk.lanes ≡ replicate (length workers.old.items) unused) }
    ensures none { IfOk result (λ desk. workers.new.items ≡ []) }
    ensures room { IfOk result (λ desk. length desk.workers ≤ vec_capacity workers.new) }
    ensures err { OnErr result (workers.new.items ≡ workers.old.items) }
{
    match Means::new(rt, alloc, workers.len(), depth) {
        Ok(
            Means {
                ready,
                parts,
                lanes,
                back,
            },
        ) => {
            let begun = mem::replace(workers, back);
            let lanes = open_lanes(rt, begun, parts, lanes, depth, stack_size);
            Ok(Desk::new(depth, lanes, ready))
        }
        Err(fault) => Err(fault),
    }
}

/// Ends the threads of a desk with no job out, and puts each worker in its place again: the second half of `with_workers`.
/// What each worker then is, it is by having carried just the jobs that were given to its lane, in their order, and the
/// outcomes taken there are theirs.
pub fn close_desk<R: Threads, W: Worker>(rt: &R, alloc: Global, desk: Desk<W>, workers: &mut Vec<W>)
    requires none_out { all_out desk ≡ 0 }
    requires empty { workers.old.items ≡ [] }
    requires room { length desk.workers ≤ vec_capacity workers.old }
    ensures { EachRuns W.carries desk.workers desk.lanes workers.new.items }
{
    let back = mem::replace(workers, Vec::new(alloc));
    *workers = desk.finish(rt, back);
}

// All that a run needs beside its workers, so that they move only once no memory is wanted any more.
struct Means<R, W: Worker> {
    ready: Arc<ReadyLanes>,
    parts: Vec<Parts<R, W::Job, W::Done>>,
    lanes: Vec<Lane<W>>,
    back: Vec<W>,
}

impl<R: Clone + Drop, W: Worker> Means<R, W> {
    fn new(rt: &R, alloc: Global, count: usize, depth: u32) -> Result<Means<R, W>, AllocError>
        ensures parts { IfOk result (λ means. means.parts.items ≡ replicate count depth) }
        ensures lanes { IfOk result (λ means. (means.lanes.items ≡ []) × (count ≤ vec_capacity means.lanes)) }
        ensures back { IfOk result (λ means. (means.back.items ≡ []) × (count ≤ vec_capacity means.back)) }
    {
        let ready = Arc::new(alloc, ReadyLanes::new(alloc, count)?)?;
        let lanes = Vec::with_capacity(alloc, count)?;
        let back = Vec::with_capacity(alloc, count)?;
        match all_parts(rt, alloc, count, depth, &ready) {
            Ok(parts) => Ok(Means {
                ready,
                parts,
                lanes,
                back,
            }),
            Err(fault) => Err(fault),
        }
    }
}
