//! Jobs that cost nothing, handed to workers and back.

ghost use Rattle.std.specs.Prelude.{◌≡◌, ◌<◌, ◌≤◌, IfOk, length, vec_len};
ghost use Rattle.bounded_executor.specs.Desk.{SameDesk, all_out};

use bounded_executor::{Boss, Desk, Worker, with_workers};
use std::alloc::{AllocError, Global};
use std::sync::Wait;
use std::thread::Threads;

/// How many jobs a lane holds.
const DEPTH: u32 = 16;

#[derive(Drop)]
struct Echo;

impl Worker for Echo {
    type Job = u64;

    type Done = u64;

    ghost carries = { λ before job done after. done ≡ job };

    fn carry(&mut self, job: u64) -> u64 {
        job
    }
}

/// Gives the jobs below `jobs` to the lanes in turn, takes an outcome where a lane refuses, and adds the outcomes up.
#[derive(Drop)]
struct InTurn {
    jobs: u64,
    sum: u64,
}

fn take_one<R: Wait>(rt: &R, desk: &mut Desk<Echo>, sum: &mut u64)
    ensures { SameDesk desk.old desk.new }
{
    if desk.out() > 0 {
        *sum = sum.wrapping_add(desk.take(rt).1);
    }
}

fn take_all<R: Wait>(rt: &R, desk: &mut Desk<Echo>, sum: &mut u64)
    ensures same_desk { SameDesk desk.old desk.new }
    ensures none_out { all_out desk.new ≡ 0 }
{
    for _ in rt.forever() {
        if desk.out() == 0 {
            return;
        }
        take_one(rt, desk, sum);
    }
}

fn give<R: Wait>(rt: &R, desk: &mut Desk<Echo>, lane: u32, job: u64, sum: &mut u64)
    requires { lane < length desk.old.lanes }
    ensures { SameDesk desk.old desk.new }
{
    let mut job = job;
    for _ in rt.forever() {
        match desk.give(lane, job) {
            Ok(()) => return,
            Err(back) => job = back,
        }
        take_one(rt, desk, sum);
    }
}

impl Boss<Echo> for InTurn {
    ghost may_direct = { λ boss lanes depth. 1 ≤ lanes };

    ghost directs = { λ before lanes after. Unit {0} };

    fn direct<R: Wait>(&mut self, rt: &R, desk: &mut Desk<Echo>) {
        let lanes = u64::from(desk.lanes());
        for job in 0..self.jobs {
            give(rt, desk, (job % lanes) as u32, job, &mut self.sum);
        }
        take_all(rt, desk, &mut self.sum);
    }
}

fn echoes(alloc: Global, count: u32) -> Result<Vec<Echo>, AllocError>
    ensures { IfOk result (λ workers. vec_len workers ≡ count) }
{
    let mut workers = Vec::new(alloc);
    for _made in 0..count {
        workers.push(Echo)?;
    }
    Ok(workers)
}

/// The sum of the outcomes, or none where there are not 1 to 65,535 lanes.
pub(crate) fn hand_over<R: Threads + Wait + Clone + Send + Drop + 'static>(
    rt: &R,
    alloc: Global,
    lanes: u32,
    jobs: u64,
) -> Result<Option<u64>, AllocError> {
    if lanes == 0 || lanes > 65_535 {
        return Ok(None);
    }
    let mut workers = echoes(alloc, lanes)?;
    let mut boss = InTurn { jobs, sum: 0 };
    with_workers(rt, alloc, &mut workers, DEPTH, &mut boss)?;
    Ok(Some(boss.sum))
}
