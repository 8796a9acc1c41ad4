//! A run that is cancelled.

ghost use Rattle.std.specs.Prelude.{◌≡◌, ◌<◌, ◌∷◌, ℕ, false, is_some, length, true};
ghost use Rattle.held_parts.specs.Held.{IsSamePool};
ghost use Rattle.manager_moves.specs.Runs.{Stopped};
ghost use Rattle.part_tables.specs.Tables.{IsFreed};
ghost use Rattle.task_acts.specs.declared.work.Work.{Work};
ghost use Rattle.task_acts.specs.Histories.{Cancelled, History};
ghost use Rattle.move_laws.specs.Admits.{Admits, GoesOn};
ghost use Rattle.move_laws.specs.Bytes.{KeepsBytes, no_part};
ghost use Rattle.move_laws.specs.Cancelling.{AreTold, TellsNext};
ghost use Rattle.move_laws.specs.Follows.{IsTaskIn};
ghost use Rattle.move_laws.specs.Freed.{AreWithJobs, keeps_part};
ghost use Rattle.move_laws.specs.Kept.{state_at};
ghost use Rattle.move_laws.specs.Steady.{IsSteady};

use crate::move_core::MoveCore;
use s3_model::Reason;
use task_slots::cancel_task;

impl MoveCore {
    /// Whether the state of a task is there.
    fn has_state(&self, task: u32) -> bool
        requires { task < length self.now.slots }
        ensures { result ≡ is_some (state_at self.now task) }
    {
        self.slots[task as usize].has_state()
    }

    /// A task hears of the first cancel, if its state is there.
    fn cancel(&mut self, task: u32, reason: Reason)
        requires made { task < self.old.made }
        requires told { AreTold reason task self.old }
        ensures made { self.new.made ≡ self.old.made }
        ensures next { TellsNext reason task self.old self.new }
        ensures bytes { KeepsBytes no_part self.old.parts.slots self.new.parts.slots }
        ensures steady { IsSteady self.old self.new }
    {
        if !self.has_state(task) {
            return;
        }
        let mut state = self.take_state(task);
        cancel_task(&mut self.parts, &mut state, task, reason);
        self.put_state(task, state);
    }

    /// The run is cancelled. Each task that is made and has not ended hears of it, unless an earlier cancel came: the
    /// first reason stays. Parts that a stopped task has here or with jobs that it kept are free from now on. It goes
    /// over the made tasks and takes no memory.
    pub fn cancel_all(&mut self, reason: Reason)
        requires { Admits (Stopped reason) self.old }
        ensures goes_on { GoesOn (Stopped reason) self.old self.new }
        ensures bytes { KeepsBytes no_part self.old.parts.slots self.new.parts.slots }
        ensures steady { IsSteady self.old self.new }
    {
        if self.reason.is_some() {
            return;
        }
        self.reason = Some(reason);
        for task in 0..self.made {
            self.cancel(task, reason);
        }
    }
}
