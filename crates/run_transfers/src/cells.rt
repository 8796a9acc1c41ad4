//! The cells of tasks that fail.

ghost use Rattle.std.specs.Prelude.{◌≡◌, ℕ, true, OnOk, Some, slice_get};
ghost use Rattle.manager_core.specs.Due.{told};
ghost use Rattle.manager_core.specs.Kept.{jobs_at};
ghost use Rattle.manager_core.specs.Running.{IsRunning, KeepsRun, Start};
ghost use Rattle.manager_core.specs.Shown.{HasTaskAt, is_failing};
ghost use Rattle.manager_core.specs.Steps.{HeardBy};
ghost use Rattle.manager_moves.specs.Runs.{Events, Shared};
ghost use Rattle.task_acts.specs.declared.work.Work.{Work};

use manager_core::Manager;
use s3_model::{OutOfMemory, Reason};

/// Where something of a task failed while it goes on, its jobs that are out hear of it. After want of memory, the only
/// error, they do not.
pub(crate) fn cancel_failing(manager: &mut Manager, task: u32) -> Result<(), OutOfMemory>
    requires { HasTaskAt task manager.old }
    ensures running { KeepsRun manager.old manager.new }
    ensures due { manager.new.due ≡ manager.old.due }
    ensures heard { OnOk result ((start : Start) (s : Shared) (events : Events) (w : Work)
        → IsRunning start s events manager.old → slice_get s.works task ≡ Some w
        → is_failing w task (told manager.old.due events) ≡ true
        → HeardBy (jobs_at manager.old task) (jobs_at manager.new task)) }
{
    if manager.failing(task) {
        manager.cancel_cell(task, Reason::TaskFailed)
    } else {
        Ok(())
    }
}
