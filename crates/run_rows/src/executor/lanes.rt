//! Which jobs and outcomes go through which lane, with threads and without.

ghost use Rattle.std.specs.Prelude.{◌≡◌, ◌<◌, ◌≤◌, length, vec_len};
ghost use Rattle.bounded_executor.specs.Desk.{SameDesk};

use crate::executor::carriers::{Doubler, doublers, take_all, take_one};
use bounded_executor::{Boss, Desk, with_stack_size, with_workers};
use std::alloc::{AllocError, Global};
use std::mem;
use std::sync::Wait;
use std::thread::{Builder, Threads};

// Gives the jobs below `count` to the lanes in turn, and takes an outcome where a lane refuses.
#[derive(Drop)]
struct InTurn {
    count: u32,
    taken: Vec<(u32, u64)>,
}

fn give_in_turn<R: Wait>(
    rt: &R,
    desk: &mut Desk<Doubler>,
    lane: u32,
    job: u32,
    taken: &mut Vec<(u32, u64)>,
)
    requires { lane < length desk.old.lanes }
    ensures { SameDesk desk.old desk.new }
{
    let mut job = job;
    for _ in rt.forever() {
        match desk.give(lane, job) {
            Ok(()) => return,
            Err(back) => job = back,
        }
        take_one(rt, desk, taken);
    }
}

impl Boss<Doubler> for InTurn {
    ghost may_direct = { λ boss lanes depth. 1 ≤ lanes };

    ghost directs = { λ before lanes after. Unit {0} };

    fn direct<R: Wait>(&mut self, rt: &R, desk: &mut Desk<Doubler>) {
        let lanes = desk.lanes();
        for job in 0..self.count {
            give_in_turn(rt, desk, job % lanes, job, &mut self.taken);
        }
        take_all(rt, desk, &mut self.taken);
    }
}

// Gives each job to the lane of its number, and keeps the answers.
#[derive(Drop)]
struct ByNumber {
    jobs: Vec<u32>,
    answers: Vec<Result<(), u32>>,
    taken: Vec<(u32, u64)>,
}

impl Boss<Doubler> for ByNumber {
    ghost may_direct = { λ boss lanes depth. 1 ≤ lanes };

    ghost directs = { λ before lanes after. Unit {0} };

    fn direct<R: Wait>(&mut self, rt: &R, desk: &mut Desk<Doubler>) {
        for job in &self.jobs {
            let lane = *job % desk.lanes();
            let _ = self.answers.push(desk.give(lane, *job));
        }
        take_all(rt, desk, &mut self.taken);
    }
}

/// How many lanes there are, how many jobs each holds, and whether no thread starts.
#[derive(Drop)]
pub(crate) struct Given {
    pub alone: bool,
    pub lanes: u32,
    pub depth: u32,
    ghost fits: { (1 ≤ lanes) × (lanes ≤ 65535) × (1 ≤ depth) × (depth ≤ 64) },
}

impl Given {
    /// The numbers are kept within what the executor takes.
    pub(crate) fn make(alone: bool, lanes: u32, depth: u32) -> Given {
        Given {
            alone,
            lanes: lanes.clamp(1, 65_535),
            depth: depth.clamp(1, 64),
        }
    }
}

/// Whether no thread can have a stack of the greatest size.
pub(crate) fn starts_no_thread<R: Threads>(rt: &R) -> bool {
    Builder::new()
        .stack_size(usize::MAX)
        .spawn(rt, || ())
        .is_err()
}

/// Lets a boss direct workers, in threads or without any.
fn direct<R: Threads + Wait + Clone + Send + Drop + 'static, B: Boss<Doubler>>(
    rt: &R,
    alloc: Global,
    workers: &mut Vec<Doubler>,
    given: &Given,
    boss: &mut B,
) -> Result<(), AllocError>
    requires workers { vec_len workers.old ≡ given.now.lanes }
    requires boss { B.may_direct boss.old given.now.lanes given.now.depth }
{
    if given.alone {
        with_stack_size(rt, alloc, workers, given.depth, boss, usize::MAX)
    } else {
        with_workers(rt, alloc, workers, given.depth, boss)
    }
}

/// The workers that a boss has directed.
fn directed<R: Threads + Wait + Clone + Send + Drop + 'static, B: Boss<Doubler>>(
    rt: &R,
    alloc: Global,
    given: &Given,
    boss: &mut B,
) -> Result<Vec<Doubler>, AllocError>
    requires { B.may_direct boss.old given.now.lanes given.now.depth }
{
    let mut workers = doublers(alloc, given.lanes)?;
    match direct(rt, alloc, &mut workers, given, boss) {
        Ok(()) => Ok(workers),
        Err(AllocError) => {
            mem::drop(workers);
            Err(AllocError)
        }
    }
}

/// The outcomes of a lane.
fn of_lane(alloc: Global, taken: &[(u32, u64)], lane: usize) -> Result<Vec<u64>, AllocError> {
    let mut of_lane = Vec::new(alloc);
    for (from, outcome) in taken {
        if *from as usize == lane {
            of_lane.push(*outcome)?;
        }
    }
    Ok(of_lane)
}

fn lane_shown(alloc: Global, worker: &Doubler, outcomes: &[u64]) -> Result<String, AllocError> {
    format!(in alloc; " {:?} {outcomes:?};", worker.seen.as_slice())
}

fn lanes_shown(
    alloc: Global,
    workers: &[Doubler],
    taken: &[(u32, u64)],
) -> Result<String, AllocError> {
    let mut shown = String::from_str(alloc, "lanes:")?;
    for (lane, worker) in workers.iter().enumerate() {
        let outcomes = of_lane(alloc, taken, lane)?;
        let lane = lane_shown(alloc, worker, &outcomes)?;
        shown.push_str(lane.as_str())?;
    }
    Ok(shown)
}

fn in_turn_boss(alloc: Global, count: u32) -> InTurn {
    InTurn {
        count,
        taken: Vec::new(alloc),
    }
}

/// The jobs of each lane, and its outcomes.
pub(crate) fn in_turn<R: Threads + Wait + Clone + Send + Drop + 'static>(
    rt: &R,
    alloc: Global,
    given: &Given,
    count: u32,
) -> Result<String, AllocError> {
    let mut boss = in_turn_boss(alloc, count);
    match directed(rt, alloc, given, &mut boss) {
        Ok(workers) => {
            let shown = lanes_shown(alloc, &workers, &boss.taken);
            mem::drop(workers);
            shown
        }
        Err(AllocError) => Err(AllocError),
    }
}

fn answers_shown(alloc: Global, boss: &ByNumber) -> Result<String, AllocError> {
    let (answers, taken) = (boss.answers.as_slice(), boss.taken.as_slice());
    format!(in alloc; "{answers:?} {taken:?}")
}

/// The answers to the giving of each job, and the outcomes with their lanes.
pub(crate) fn by_number<R: Threads + Wait + Clone + Send + Drop + 'static>(
    rt: &R,
    alloc: Global,
    given: &Given,
    jobs: Vec<u32>,
) -> Result<String, AllocError> {
    let mut boss = ByNumber {
        jobs,
        answers: Vec::new(alloc),
        taken: Vec::new(alloc),
    };
    match directed(rt, alloc, given, &mut boss) {
        Ok(workers) => {
            mem::drop(workers);
            answers_shown(alloc, &boss)
        }
        Err(AllocError) => Err(AllocError),
    }
}

/// Whether a worker has seen each of the jobs of its lane among 130, in order.
fn has_seen_in_turn(worker: &Doubler, lane: usize) -> bool {
    let mut next = lane;
    for job in &worker.seen {
        if *job as usize != next {
            return false;
        }
        next = next.wrapping_add(130);
    }
    true
}

fn have_seen_in_turn(workers: &[Doubler]) -> bool {
    for (lane, worker) in workers.iter().enumerate() {
        if !has_seen_in_turn(worker, lane) {
            return false;
        }
    }
    true
}

fn sum(taken: &[(u32, u64)]) -> u64 {
    let mut sum = 0u64;
    for (_, outcome) in taken {
        sum = sum.wrapping_add(*outcome);
    }
    sum
}

fn many_shown(
    alloc: Global,
    workers: &[Doubler],
    taken: &[(u32, u64)],
) -> Result<String, AllocError> {
    let (count, sum) = (taken.len(), sum(taken));
    let in_turn = have_seen_in_turn(workers);
    format!(in alloc; "{count} {sum} {in_turn}")
}

/// How many outcomes 20,000 jobs on 130 lanes have, their sum, and whether each lane had its jobs in order.
pub(crate) fn many<R: Threads + Wait + Clone + Send + Drop + 'static>(
    rt: &R,
    alloc: Global,
) -> Result<String, AllocError> {
    let given = Given::make(false, 130, 4);
    let mut boss = in_turn_boss(alloc, 20_000);
    match directed(rt, alloc, &given, &mut boss) {
        Ok(workers) => {
            let shown = many_shown(alloc, &workers, &boss.taken);
            mem::drop(workers);
            shown
        }
        Err(AllocError) => Err(AllocError),
    }
}
