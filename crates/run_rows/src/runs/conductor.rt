//! A run, move by move, over lanes that carry nothing.

ghost use Rattle.std.specs.Prelude.{◌≡◌, ◌≢◌, [], true, IfOk, IfSome, OnOk, replicate};
ghost use Rattle.manager_core.specs.Running.{CanRun};
ghost use Rattle.run_rows.specs.Runs.{IsAt, IsCall, IsFree};
ghost use Rattle.s3_model.specs.Validity.{IsValidConfig, IsValidLimits};
ghost use Rattle.task_acts.specs.Kept.{MayCome};

use crate::runs::lane::{Lane, push_to, take_from};
use manager_core::Manager;
use manager_moves::Move;
use run_scripts::come_back;
use s3_model::{Config, Journal, Limits, Op, OutOfMemory, Outcome, Plan, Reason};
use s3_outside::FileFault;
use std::alloc::Global;
use std::mem;
use task_acts::{Act, FileCame};

/// A run, and the lanes to which its jobs are given.
#[derive(Drop)]
pub(crate) struct Conductor {
    pub(crate) alloc: Global,
    pub(crate) manager: Manager,
    pub(crate) lanes: Vec<Lane>,
}

#[tactic(auto, using(std::proofs::lemmas::List::replicate_more))]
fn empty_lanes(alloc: Global, count: u32) -> Result<Vec<Lane>, OutOfMemory>
    ensures { IfOk result (λ lanes. lanes.items ≡ replicate count []) }
{
    let mut lanes = Vec::with_capacity(alloc, count as usize)?;
    for _ in 0..count {
        lanes.push(Lane::empty(alloc))?;
    }
    Ok(lanes)
}

/// The call on files that a move is, if it is one.
pub(crate) fn call_in(next: Move) -> Option<(u32, Act)>
    ensures { IfSome result (IsCall next) }
{
    match next {
        Move::Read { task, number } => Some((task, Act::Read { number })),
        Move::Place { task, number } => Some((task, Act::Place { number })),
        Move::Assemble { task, .. } => Some((task, Act::Assemble)),
        Move::Rename { task, .. } => Some((task, Act::Rename)),
        Move::DropTemp { task, .. } => Some((task, Act::DropTemp)),
        Move::Remove { task, .. } => Some((task, Act::Remove)),
        Move::Stamp { task, .. } => Some((task, Act::Stamp)),
        Move::Make(_) | Move::Give { .. } | Move::Line(_) | Move::Wait | Move::End => None,
    }
}

/// Whether a call can come back so.
fn may_come(act: Act, came: FileCame) -> bool
    ensures { result ≡ true → MayCome act came }
{
    match came {
        FileCame::Fine => true,
        FileCame::Short => matches!(act, Act::Read { .. }),
        FileCame::Fault(FileFault::Blocked { .. }) => matches!(act, Act::Assemble | Act::Rename),
        FileCame::Fault(_) => true,
    }
}

/// The next job goes to its lane.
fn give_to(
    manager: &mut Manager,
    lanes: &mut Vec<Lane>,
    task: u32,
    op: Op,
    number: u32,
    lane: u32,
) -> Result<(), OutOfMemory>
    requires { IsAt (Move.Give task op number lane) manager.old lanes.old.items }
    ensures { OnOk result (IsFree manager.new lanes.new.items) }
{
    let job = manager.job(task, op, number);
    push_to(lanes, lane, job)?;
    manager.gave(lane);
    Ok(())
}

/// The oldest job of a lane comes back. False where none does, or it cannot come so.
fn take_back(
    alloc: Global,
    manager: &mut Manager,
    lanes: &mut Vec<Lane>,
    lane: u32,
    came: &str,
) -> Result<bool, OutOfMemory>
    requires { IsAt Move.Wait manager.old lanes.old.items }
    ensures { IfOk result (λ back. back ≡ true → IsFree manager.new lanes.new.items) }
{
    if lane as usize >= lanes.len() {
        return Ok(false);
    }
    let Some(job) = take_from(lanes, lane) else {
        return Ok(false);
    };
    let Some(carried) = come_back(alloc, job, came)? else {
        return Ok(false);
    };
    manager.came(lane, carried);
    Ok(true)
}

impl Conductor {
    /// A run of a plan, of which nothing happened.
    pub(crate) fn make(
        alloc: Global,
        plan: Plan,
        config: &Config,
        limits: &Limits,
    ) -> Result<Conductor, OutOfMemory>
        requires config { IsValidConfig config.now }
        requires limits { IsValidLimits limits.now }
        requires plan { CanRun limits.now plan.tasks.items }
        ensures { IfOk result (λ run. IsFree run.manager run.lanes.items) }
    {
        let lanes = empty_lanes(alloc, config.lanes)?;
        match Manager::make(
            alloc,
            plan,
            Journal::make(alloc),
            config,
            limits,
            config.lanes,
        ) {
            Ok(manager) => Ok(Conductor {
                alloc,
                manager,
                lanes,
            }),
            Err(back) => {
                mem::drop(back);
                mem::drop(lanes);
                Err(OutOfMemory)
            }
        }
    }

    pub(crate) fn next(&mut self) -> Move
        requires { IsFree self.old.manager self.old.lanes.items }
        ensures { IsAt result self.new.manager self.new.lanes.items }
    {
        self.manager.next()
    }

    /// The next task is made.
    pub(crate) fn make_task(&mut self, task: u32)
        requires { IsAt (Move.Make task) self.old.manager self.old.lanes.items }
        ensures { IsFree self.new.manager self.new.lanes.items }
    {
        self.manager.made(task);
    }

    /// The next job goes to its lane.
    pub(crate) fn give(
        &mut self,
        task: u32,
        op: Op,
        number: u32,
        lane: u32,
    ) -> Result<(), OutOfMemory>
        requires { IsAt (Move.Give task op number lane) self.old.manager self.old.lanes.items }
        ensures { OnOk result (IsFree self.new.manager self.new.lanes.items) }
    {
        give_to(&mut self.manager, &mut self.lanes, task, op, number, lane)
    }

    /// The call on files comes back that the next move is. False where it is none, or cannot come so.
    pub(crate) fn call(&mut self, next: Move, came: FileCame) -> bool
        requires { IsAt next self.old.manager self.old.lanes.items }
        ensures { result ≡ true → IsFree self.new.manager self.new.lanes.items }
    {
        let Some(call) = call_in(next) else {
            return false;
        };
        if !may_come(call.1, came) {
            return false;
        }
        self.manager.file_came(came);
        true
    }

    /// The line of the next task is due.
    pub(crate) fn line(&mut self, task: u32)
        requires { IsAt (Move.Line task) self.old.manager self.old.lanes.items }
        ensures { IsFree self.new.manager self.new.lanes.items }
    {
        self.manager.lined();
    }

    /// The oldest job of a lane comes back. False where none does, or it cannot come so.
    pub(crate) fn wait(&mut self, lane: u32, came: &str) -> Result<bool, OutOfMemory>
        requires { IsAt Move.Wait self.old.manager self.old.lanes.items }
        ensures { IfOk result (λ back. back ≡ true → IsFree self.new.manager self.new.lanes.items) }
    {
        take_back(self.alloc, &mut self.manager, &mut self.lanes, lane, came)
    }

    /// The run is cancelled.
    pub(crate) fn cancel(&mut self, reason: Reason)
        requires free { IsFree self.old.manager self.old.lanes.items }
        requires reason { reason ≢ Reason.TaskFailed }
        ensures { IsFree self.new.manager self.new.lanes.items }
    {
        self.manager.cancel_all(reason);
    }

    /// How many entries the journal has, and how many outcomes there are.
    pub(crate) fn finish(self) -> (usize, usize)
        requires { IsAt Move.End self.manager self.lanes.items }
    {
        let Conductor { manager, lanes, .. } = self;
        mem::drop(lanes);
        let (plan, outcomes, journal) = manager.finish();
        mem::drop(plan);
        let counts = (journal.len(), outcomes.len());
        mem::drop(outcomes);
        mem::drop(journal);
        counts
    }

    pub(crate) fn outcome(&self, task: u32) -> Option<&Outcome> {
        self.manager.outcome(task)
    }
}
