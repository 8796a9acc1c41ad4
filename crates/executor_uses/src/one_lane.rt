//! One lane, whose answer is exact.

ghost use Rattle.std.specs.Prelude.{◌≡◌, ◌<◌, ◌≤◌, ◌*◌, ◌+◌, ◌++◌, ◌∷◌, [], length, map, vec_len, vec_capacity, IfOk};
ghost use Rattle.bounded_executor.specs.Exchange.{jobs_out};
ghost use Rattle.bounded_executor.specs.Desk.{lane_of, all_out, SameDesk};
ghost use Rattle.executor_uses.specs.OneLane.{IsOneExchange};

use bounded_executor::{Boss, Desk, Worker, with_workers};
use std::alloc::{AllocError, Global};
use std::sync::Wait;
use std::thread::Threads;

/// How many jobs the lane holds.
const DEPTH: u32 = 16;

#[derive(Drop)]
struct Doubler;

impl Worker for Doubler {
    type Job = u32;

    type Done = u64;

    ghost carries = { λ before job done after. done ≡ 2 * job };

    fn carry(&mut self, job: u32) -> u64 {
        2 * u64::from(job)
    }
}

// Gives its jobs to one lane, in order, and keeps the outcomes. The list of these has the room already.
#[derive(Drop)]
struct OneLane {
    jobs: Vec<u32>,
    doubles: Vec<u64>,
}

fn take_next<R: Wait>(rt: &R, desk: &mut Desk<Doubler>, doubles: &mut Vec<u64>)
    requires kept { IsOneExchange desk.old.lanes (lane_of desk.old 0).given doubles.old.items }
    requires some { 0 < all_out desk.old }
    requires room { length (lane_of desk.old 0).given ≤ vec_capacity doubles.old }
    ensures same_desk { SameDesk desk.old desk.new }
    ensures kept { IsOneExchange desk.new.lanes (lane_of desk.old 0).given doubles.new.items }
    ensures capacity { vec_capacity doubles.new ≡ vec_capacity doubles.old }
    ensures fewer { jobs_out (lane_of desk.new 0) < jobs_out (lane_of desk.old 0) }
{
    let (_, double) = desk.take(rt);
    doubles.push_reserved(double);
}

// Takes an outcome where the lane is full.
fn make_room<R: Wait>(rt: &R, desk: &mut Desk<Doubler>, doubles: &mut Vec<u64>)
    requires kept { IsOneExchange desk.old.lanes (lane_of desk.old 0).given doubles.old.items }
    requires depth { 0 < desk.old.depth }
    requires room { length (lane_of desk.old 0).given ≤ vec_capacity doubles.old }
    ensures same_desk { SameDesk desk.old desk.new }
    ensures kept { IsOneExchange desk.new.lanes (lane_of desk.old 0).given doubles.new.items }
    ensures capacity { vec_capacity doubles.new ≡ vec_capacity doubles.old }
    ensures has_room { jobs_out (lane_of desk.new 0) < desk.new.depth }
{
    if desk.room(0) == 0 {
        take_next(rt, desk, doubles);
    }
}

fn give_next<R: Wait>(rt: &R, desk: &mut Desk<Doubler>, job: u32, doubles: &mut Vec<u64>)
    requires kept { IsOneExchange desk.old.lanes (lane_of desk.old 0).given doubles.old.items }
    requires depth { 0 < desk.old.depth }
    requires room { length (lane_of desk.old 0).given ≤ vec_capacity doubles.old }
    ensures same_desk { SameDesk desk.old desk.new }
    ensures kept { IsOneExchange desk.new.lanes ((lane_of desk.old 0).given ++ job ∷ []) doubles.new.items }
    ensures capacity { vec_capacity doubles.new ≡ vec_capacity doubles.old }
{
    make_room(rt, desk, doubles);
    let _ = desk.give(0, job);
}

fn give_all<R: Wait>(rt: &R, desk: &mut Desk<Doubler>, jobs: &[u32], doubles: &mut Vec<u64>)
    requires unused { IsOneExchange desk.old.lanes [] doubles.old.items }
    requires depth { 0 < desk.old.depth }
    requires room { length jobs.now ≤ vec_capacity doubles.old }
    ensures same_desk { SameDesk desk.old desk.new }
    ensures kept { IsOneExchange desk.new.lanes jobs.now doubles.new.items }
    ensures capacity { vec_capacity doubles.new ≡ vec_capacity doubles.old }
{
    for job in jobs {
        give_next(rt, desk, *job, doubles);
    }
}

fn take_all<R: Wait>(rt: &R, desk: &mut Desk<Doubler>, doubles: &mut Vec<u64>)
    requires kept { IsOneExchange desk.old.lanes (lane_of desk.old 0).given doubles.old.items }
    requires room { length (lane_of desk.old 0).given ≤ vec_capacity doubles.old }
    ensures same_desk { SameDesk desk.old desk.new }
    ensures none_out { all_out desk.new ≡ 0 }
    ensures kept { IsOneExchange desk.new.lanes (lane_of desk.old 0).given doubles.new.items }
{
    for _ in rt.forever() {
        if desk.out() == 0 {
            return;
        }
        take_next(rt, desk, doubles);
    }
}

impl Boss<Doubler> for OneLane {
    ghost may_direct = { λ boss lanes depth. (lanes ≡ 1) × (1 ≤ depth) × (boss.doubles.items ≡ [])
        × (vec_len boss.jobs ≤ vec_capacity boss.doubles) };

    ghost directs = { λ before lanes after. IsOneExchange lanes before.jobs.items after.doubles.items };

    fn direct<R: Wait>(&mut self, rt: &R, desk: &mut Desk<Doubler>) {
        give_all(rt, desk, &self.jobs, &mut self.doubles);
        take_all(rt, desk, &mut self.doubles);
    }
}

/// The double of each job, in order, by a worker in a thread of its own.
pub fn doubled<R: Threads + Wait + Clone + Send + Drop + 'static>(
    rt: &R,
    alloc: Global,
    jobs: Vec<u32>,
) -> Result<Vec<u64>, AllocError>
    ensures { IfOk result (λ doubles. doubles.items ≡ map (λ job. 2 * job) jobs.items) }
{
    let mut workers = Vec::new(alloc);
    workers.push(Doubler)?;
    let doubles = Vec::with_capacity(alloc, jobs.len())?;
    let mut boss = OneLane { jobs, doubles };
    with_workers(rt, alloc, &mut workers, DEPTH, &mut boss)?;
    Ok(boss.doubles)
}
