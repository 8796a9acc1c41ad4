//! Which act of a task comes next.

ghost use Rattle.std.specs.Prelude.{◌≡◌};
ghost use Rattle.task_acts.specs.Rule.{first_ready};
ghost use Rattle.task_stages.specs.Stages.{stage_by};

use crate::pieces::{first_place, first_read, first_send};
use crate::singles::{first_call, first_job};
use task_acts::Act;
use task_stages::TaskStages;

/// The first act that is ready, None where none is: a call on files that is no Read, then a job, then a Read, the
/// least number first. `stopped` says whether a failure or a cancel came.
///
/// It costs the same however many pieces there are.
pub fn first_ready(stages: &TaskStages, stopped: bool) -> Option<Act>
    ensures { result ≡ first_ready stages.now.work (stage_by stages.now) stopped }
{
    let _work = stages.work();
    first_call(stages, stopped)
        .or(first_place(stages, stopped))
        .or(first_job(stages, stopped))
        .or(first_send(stages, stopped))
        .or(first_read(stages, stopped))
}
