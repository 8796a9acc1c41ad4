//! The parts of a task that stops.

ghost use Rattle.std.specs.Prelude.{◌≡◌, ◌&&◌, ◌==◌, ◌<◌, ◌+◌, ◌^◌, ◌∷◌, ℕ, true, false, None, if◌then◌else◌, is_some, nat_lt};
ghost use Rattle.held_parts.specs.Held.{IsSamePool, held_at};
ghost use Rattle.kept_jobs.specs.Slots.{job_at};
ghost use Rattle.part_tables.specs.Tables.{IsFreed, IsPutWhere};
ghost use Rattle.s3_model.specs.declared.requests.Op.{Op as OneOp};
ghost use Rattle.task_acts.specs.declared.acts.Act.TheVariants as act_of;
ghost use Rattle.task_acts.specs.declared.work.Work.{Work as OneWork};
ghost use Rattle.task_acts.specs.Failures.{is_stopped};
ghost use Rattle.task_acts.specs.Histories.{Cancelled, History, is_act};
ghost use Rattle.move_laws.specs.Follows.{IsTaskIn};
ghost use Rattle.move_laws.specs.Freed.{AreWithJobs, IsWith, keeps_part, kept_piece, part_in};

use crate::parts::free_part;
use held_parts::HeldParts;
use jobs::Job;
use s3_model::{Op, Part, Reason};
use std::mem;
use task_core::TaskState;

/// The part of a job.
fn part_in(job: Option<Job>) -> Option<Part>
    ensures { result ≡ part_in job }
{
    match job {
        Some(Job { what, part, .. }) => {
            mem::drop(what);
            part
        }
        None => None,
    }
}

/// The part of a job that is kept is free from now on, if it has one, and the job is kept no longer.
fn free_kept(parts: &mut HeldParts, state: &mut TaskState, task: u32, op: Op, number: u32)
    requires { IsWith parts.old.pool.room (held_at parts.old.slots task number) (job_at state.old.kept op number) }
    ensures held { IsPutWhere (is_some (part_in (job_at state.old.kept op number))) task number None parts.old.slots
        parts.new.slots }
    ensures pool { IsSamePool parts.old.pool parts.new.pool }
    ensures kept { (other : OneOp) (at : ℕ) → job_at state.new.kept other at
        ≡ (if is_act (act_of.Send other at) (act_of.Send op number) then None else job_at state.old.kept other at) }
    ensures stages { state.new.stages ≡ state.old.stages }
    ensures known { (room : ℕ) (w : OneWork) (h : History) → is_stopped w h ≡ true → IsTaskIn room w h state.old
        → IsTaskIn room w h state.new }
    ensures tags { state.new.tags ≡ state.old.tags }
{
    let job = state.kept(op, number);
    let part = part_in(job);
    free_part(parts, task, number, part);
}

/// The parts of the jobs that are kept for the pieces of a task are free from now on.
fn free_each_kept(parts: &mut HeldParts, state: &mut TaskState, task: u32)
    requires { AreWithJobs parts.old task state.old }
    ensures held { (x y : ℕ) → held_at parts.new.slots x y
        ≡ (if (task == x) && keeps_part state.old y then None else held_at parts.old.slots x y) }
    ensures pool { IsSamePool parts.old.pool parts.new.pool }
    ensures known { (room : ℕ) (w : OneWork) (h : History) → is_stopped w h ≡ true → IsTaskIn room w h state.old
        → IsTaskIn room w h state.new }
    ensures tags { state.new.tags ≡ state.old.tags }
{
    let work = state.work();
    let op = work.piece_op();
    let first = work.first_number();
    for number in first..first + work.count {
        free_kept(parts, state, task, op, number);
    }
}

/// The parts of a task that has stopped are free from now on: those of the jobs that are kept for its pieces, and those
/// that are here. What is out keeps its part.
pub fn free_parts(parts: &mut HeldParts, state: &mut TaskState, task: u32)
    requires { AreWithJobs parts.old task state.old }
    ensures freed { IsFreed task (keeps_part state.old) parts.old.slots parts.new.slots }
    ensures pool { IsSamePool parts.old.pool parts.new.pool }
    ensures known { (room : ℕ) (w : OneWork) (h : History) → is_stopped w h ≡ true → IsTaskIn room w h state.old
        → IsTaskIn room w h state.new }
    ensures tags { state.new.tags ≡ state.old.tags }
{
    free_each_kept(parts, state, task);
    parts.stop(task);
}

/// A task hears of a cancel. If that stops it, its parts are free from now on.
pub fn cancel_task(parts: &mut HeldParts, state: &mut TaskState, task: u32, reason: Reason)
    requires { state.old.causes.failing ≡ false → AreWithJobs parts.old task state.old }
    ensures freed { state.old.causes.failing ≡ false
        → IsFreed task (keeps_part state.old) parts.old.slots parts.new.slots }
    ensures same { state.old.causes.failing ≡ true → parts.new ≡ parts.old }
    ensures pool { IsSamePool parts.old.pool parts.new.pool }
    ensures told { (room : ℕ) (w : OneWork) (h : History) → IsTaskIn room w h state.old
        → IsTaskIn room w (Cancelled reason ∷ h) state.new }
    ensures tags { state.new.tags ≡ state.old.tags }
{
    let had_stopped = state.failing();
    state.cancel(reason);
    if !had_stopped {
        free_parts(parts, state, task);
    }
}
