//! Tasks that are made.

ghost use Rattle.std.specs.Prelude.{◌≡◌, ◌<◌, ◌∷◌, false, Bool, IfOk, IfSome, IsSomeAnd, None, get_or, is_some, length, set};
ghost use Rattle.manager_moves.specs.Runs.{Events, Made, Shared};
ghost use Rattle.manager_core.specs.Answers.{IsDue};
ghost use Rattle.manager_core.specs.Cells.{KeepsCellsBut};
ghost use Rattle.manager_core.specs.Kept.{jobs_at};
ghost use Rattle.manager_core.specs.Running.{IsRunning, Start};
ghost use Rattle.run_steps.specs.Steps.{settled_steps};
ghost use Rattle.s3_model.specs.Validity.{IsValidConfig, IsValidLimits};
ghost use Rattle.step_jobs.specs.Shares.{HasAll};
ghost use Rattle.task_works.specs.Works.{IsBegun, IsWithinObject};

use crate::due::Due;
use crate::manager::Manager;
use crate::steps::StepSlot;
use manager_moves::Move;
use move_core::MoveCore;
use s3_model::{Config, Limits, OutOfMemory, Task};
use std::alloc::Global;
use std::mem;
use task_core::TaskState;

/// What is made for a task. Where memory ran out it has no jobs.
#[derive(Drop)]
struct Begun {
    state: Result<TaskState, OutOfMemory>,
    steps: StepSlot,
}

fn make_both(
    alloc: Global,
    task: &Task,
    config: &Config,
    limits: &Limits,
) -> Result<(TaskState, StepSlot), OutOfMemory>
    requires config { IsValidConfig config.now }
    requires limits { IsValidLimits limits.now }
    requires within { IsWithinObject task.now limits.now }
    requires replaces { task.now.fresh ≡ false }
    ensures begun { IfOk result (λ both. IsBegun task.now config.now limits.now both.0) }
    ensures steps { IfOk result (λ both. IsSomeAnd both.1
        (λ j. (j.task ≡ task.now) × (j.work ≡ both.0.stages.work) × HasAll j)) }
    ensures unheard { IfOk result (λ both. IfSome both.1 (λ j. j.cell.known ≡ None)) }
{
    let state = task_works::begin(alloc, task, config, limits)?;
    match StepSlot::make(alloc, task, state.work()) {
        Ok(steps) => Ok((state, steps)),
        Err(OutOfMemory) => {
            mem::drop(state);
            Err(OutOfMemory)
        }
    }
}

/// The state of a task, and its jobs.
fn begin(alloc: Global, task: &Task, config: &Config, limits: &Limits) -> Begun
    requires config { IsValidConfig config.now }
    requires limits { IsValidLimits limits.now }
    requires within { IsWithinObject task.now limits.now }
    requires replaces { task.now.fresh ≡ false }
    ensures begun { IfOk result.state (IsBegun task.now config.now limits.now) }
    ensures steps { IfOk result.state (λ st. IsSomeAnd result.steps
        (λ j. (j.task ≡ task.now) × (j.work ≡ st.stages.work) × HasAll j)) }
    ensures unheard { IfSome result.steps (λ j. j.cell.known ≡ None) }
{
    match make_both(alloc, task, config, limits) {
        Ok((state, steps)) => Begun {
            state: Ok(state),
            steps,
        },
        Err(OutOfMemory) => Begun {
            state: Err(OutOfMemory),
            steps: StepSlot::empty(),
        },
    }
}

/// The jobs of a task are put in their place.
fn put(places: &mut Vec<StepSlot>, task: u32, steps: StepSlot)
    requires { task < length places.old.items }
    ensures { places.new.items ≡ set places.old.items task steps }
{
    mem::drop(mem::replace(&mut places[task as usize], steps));
}

/// Whether a task has ended.
fn has_ended(moves: &MoveCore, task: u32) -> bool
    ensures { result ≡ is_some (get_or moves.now.outcomes task None) }
{
    moves.outcome(task).is_some()
}

impl Manager {
    /// The jobs of a task are let go once it has ended.
    pub(crate) fn settle(&mut self, task: u32)
        requires { task < length self.old.steps }
        ensures { self.new ≡ record self.old {
          steps = settled_steps task self.old.moves.outcomes self.old.steps;
        } }
    {
        if has_ended(&self.moves, task) {
            put(&mut self.steps, task, StepSlot::empty());
        }
    }

    /// The next task is made, as the next move was. Where memory runs out for it, it has failed for that.
    pub fn made(&mut self, task: u32)
        requires { IsDue (Move.Make task) self.old }
        ensures running { (start : Start) (s : Shared) (events : Events) → IsRunning start s events self.old
            → (fits : Bool) × IsRunning start s (Made fits ∷ events) self.new }
        ensures cells { KeepsCellsBut task self.old self.new }
        ensures unheard { IfSome (jobs_at self.new task) (λ j. j.cell.known ≡ None) }
        ensures parts { self.new.moves.parts ≡ self.old.moves.parts }
        ensures free { self.new.due ≡ Due.Free }
    {
        self.due = Due::Free;
        let Begun { state, steps } = begin(self.alloc, self.task(task), &self.config, &self.limits);
        put(&mut self.steps, task, steps);
        let _fits = self.moves.made(self.alloc, state);
        self.settle(task);
    }
}
