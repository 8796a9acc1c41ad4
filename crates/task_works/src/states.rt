//! A task as a machine of acts, made from its settings.

ghost use Rattle.std.specs.Prelude.{◌≡◌, false, IfOk};
ghost use Rattle.s3_model.specs.Validity.{IsValidConfig, IsValidLimits};
ghost use Rattle.task_works.specs.Works.{IsBegun, IsWithinObject};

use crate::works::work_of;
use s3_model::{Config, Limits, OutOfMemory, Task};
use std::alloc::Global;
use task_core::TaskState;

/// The task as a machine of acts, of which nothing happened yet. It takes all the memory of the task. The size of what
/// is moved is at most `max_object` bytes.
pub fn begin(
    alloc: Global,
    task: &Task,
    config: &Config,
    limits: &Limits,
) -> Result<TaskState, OutOfMemory>
    requires config { IsValidConfig config.now }
    requires limits { IsValidLimits limits.now }
    requires within { IsWithinObject task.now limits.now }
    requires replaces { task.now.fresh ≡ false }
    ensures begun { IfOk result (IsBegun task.now config.now limits.now) }
{
    let work = work_of(task, config, limits);
    TaskState::make(alloc, work)
}
