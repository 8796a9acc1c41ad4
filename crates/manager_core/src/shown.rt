//! What a run shows of itself.

ghost use Rattle.std.specs.Option.{option_copied};
ghost use Rattle.std.specs.Prelude.{◌≡◌, ◌<◌, List, Some, get_or, length, slice_get};
ghost use Rattle.manager_moves.specs.Runs.{Events, Shared};
ghost use Rattle.move_laws.specs.Follows.{outcome_at};
ghost use Rattle.manager_core.specs.Due.{told};
ghost use Rattle.manager_core.specs.Running.{IsRunning, Start};
ghost use Rattle.manager_core.specs.Shown.{HasPieceAt, HasTaskAt, is_failing, range_in};
ghost use Rattle.task_acts.specs.declared.work.Work.{Work};

use crate::due::Due;
use crate::manager::Manager;
use s3_model::{Journal, Outcome, Task};
use step_jobs::range_of;
use task_works::work_of;

impl Manager {
    /// What was given to lanes and came back, behind the journal of the planning.
    pub fn journal(&self) -> &Journal
        ensures { result.now ≡ self.now.journal }
    {
        &self.journal
    }

    /// What is to be answered before the run goes on.
    pub fn due(&self) -> Due
        ensures { result ≡ self.now.due }
    {
        self.due
    }

    pub fn task(&self, task: u32) -> &Task
        requires { task < length self.now.plan.tasks.items }
        ensures { slice_get self.now.plan.tasks.items task ≡ Some result.now }
    {
        let Some(task) = self.plan.tasks.at(task as usize) else {
            unreachable!()
        };
        task
    }

    /// The place and the length in bytes of a piece of a task, or of the whole where the number is 0.
    pub fn range(&self, task: u32, number: u32) -> (u64, u64)
        requires { HasPieceAt task number self.now }
        ensures { (start : Start) (s : Shared) (events : Events) (w : Work) → IsRunning start s events self.now
            → slice_get s.works task ≡ Some w → result ≡ range_in w number }
    {
        let task = self.task(task);
        if number == 0 {
            (0, task.size)
        } else {
            range_of(&work_of(task, &self.config, &self.limits), number)
        }
    }

    /// How a task ended, None where it has not.
    pub fn outcome(&self, task: u32) -> Option<&Outcome>
        ensures kept { option_copied result ≡ get_or self.now.moves.outcomes task None }
        ensures follows { (start : Start) (s : Shared) (events : Events) → IsRunning start s events self.now
            → option_copied result ≡ outcome_at task (slice_get s.works task) (told self.now.due events) }
    {
        self.moves.outcome(task)
    }

    /// Whether something failed of a task that is made and has not ended.
    pub fn failing(&self, task: u32) -> bool
        requires { HasTaskAt task self.now }
        ensures { (start : Start) (s : Shared) (events : Events) (w : Work) → IsRunning start s events self.now
            → slice_get s.works task ≡ Some w → result ≡ is_failing w task (told self.now.due events) }
    {
        self.steps[task as usize].has_jobs() && self.moves.failing(task)
    }
}
