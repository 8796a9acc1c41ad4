//! The outcomes of a dry run.

ghost use Rattle.std.specs.Prelude.{◌≡◌, IfOk};
ghost use Rattle.dry_runs.specs.Shown.{all_dry};

use s3_model::{OutOfMemory, Outcome, Outcomes, Task};
use std::alloc::Global;

/// Dry, for each task.
pub(crate) fn dry_outcomes(alloc: Global, tasks: &[Task]) -> Result<Outcomes, OutOfMemory>
    ensures { IfOk result (λ outcomes. outcomes.items ≡ all_dry tasks.now) }
{
    let mut outcomes = Outcomes::make(alloc);
    for _task in tasks {
        outcomes.reserve(1)?;
        outcomes.push(Outcome::Dry);
    }
    Ok(outcomes)
}
