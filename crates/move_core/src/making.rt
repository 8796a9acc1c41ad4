//! Tasks that are made.

ghost use Rattle.std.specs.Prelude.{◌≡◌, ◌<◌, ◌+◌, ◌^◌, ◌∷◌, [], false, Ok, IfOk, IfErr, length};
ghost use Rattle.manager_moves.specs.Runs.{Events, Made, Shared};
ghost use Rattle.task_acts.specs.declared.work.Work.{Work};
ghost use Rattle.task_core.specs.Machine.{SeenTask, Stands};
ghost use Rattle.move_laws.specs.Admits.{Admits, IsRunOf};
ghost use Rattle.move_laws.specs.Follows.{Follows};
ghost use Rattle.move_laws.specs.Kept.{IsSound, with_state};
ghost use Rattle.std.specs.Result.{result_ok};
ghost use Rattle.move_laws.specs.Steady.{IsSteadyBut};
ghost use Rattle.move_laws.specs.Making.{IsNew, first_cancel, with_lost, with_made};

use crate::move_core::MoveCore;
use s3_model::{Cause, OutOfMemory, Outcome, Reason};
use std::alloc::Global;
use task_core::TaskState;
use task_slots::{TaskSlot, boxed, tell};

impl MoveCore {
    /// The next task is made and in this state, or has ended in it.
    fn begin(&mut self, state: Box<TaskState>)
        requires there { self.old.made < length self.old.slots }
        requires few { self.old.unfinished + 1 < 2 ^ 32 }
        ensures { self.new ≡ with_state self.old.made state.value (with_made self.old) }
    {
        let task = self.made;
        self.made += 1;
        self.unfinished += 1;
        self.put_state(task, state);
    }

    /// The next task is made, and memory ran out for it.
    fn lose(&mut self)
        requires { self.old.made < length self.old.slots }
        ensures lost { self.new ≡ with_lost self.old }
        ensures sound { IsSound self.old.acts self.old.slots self.old.outcomes self.old.made }
    {
        self.put_slot(self.made, TaskSlot::empty());
        self.put_outcome(self.made, Some(Outcome::Failed(Cause::Memory)));
        self.made += 1;
    }

    /// The next task is made, in this state. Where memory ran out for it, or does for its place here, it has failed,
    /// and false is answered. A task that is made after a cancel hears of the first one, and may have ended at once.
    pub fn made(&mut self, alloc: Global, state: Result<TaskState, OutOfMemory>) -> bool
        requires { Admits (Made false) self.old }
        ensures lost { IfErr state (λ lost. result ≡ false) }
        ensures made { (s : Shared) (events : Events) → IfOk state (IsNew s events) → IsRunOf s (Made result ∷ events)
            → Follows s events self.old → Follows s (Made result ∷ events) self.new }
        ensures parts { self.new.parts ≡ self.old.parts }
        ensures steady { IsSteadyBut (result_ok state) self.old self.new }
    {
        match boxed(alloc, state) {
            Ok(mut state) => {
                tell(&mut state, self.reason);
                self.begin(state);
                true
            }
            Err(OutOfMemory) => {
                self.lose();
                false
            }
        }
    }
}
