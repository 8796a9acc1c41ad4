//! The run that a row names.

ghost use Rattle.std.specs.Prelude.{IfOk, IfSome};
ghost use Rattle.run_rows.specs.Runs.{IsFree};
ghost use Rattle.run_scripts.specs.Tasks.{EachReplaces};
ghost use Rattle.s3_model.specs.Validity.{IsValidConfig};
ghost use Rattle.sync_plan.specs.Fit.{IsFit};

use crate::runs::conductor::Conductor;
use run_scripts::{limits, read_config, read_tasks};
use s3_model::{Config, OutOfMemory, Plan, Tasks, Warnings};
use std::alloc::Global;

/// A run of these tasks.
#[tactic(auto, using(crate::proofs::RunLemmas::can_run))]
fn run_of(alloc: Global, tasks: Tasks, config: &Config) -> Result<Conductor, OutOfMemory>
    requires fit { IsFit 256 tasks.items }
    requires replace { EachReplaces tasks.items }
    requires config { IsValidConfig config.now }
    ensures { IfOk result (λ run. IsFree run.manager run.lanes.items) }
{
    let plan = Plan {
        tasks,
        warnings: Warnings::make(alloc),
    };
    Conductor::make(alloc, plan, config, &limits())
}

/// The run of the tasks and the settings that a row names. None where they are not understood, or not allowed.
pub(crate) fn read_run(
    alloc: Global,
    tasks: &str,
    config: &str,
) -> Result<Option<Conductor>, OutOfMemory>
    ensures { IfOk result (λ run. IfSome run (λ r. IsFree r.manager r.lanes.items)) }
{
    let Some(config) = read_config(config) else {
        return Ok(None);
    };
    match read_tasks(alloc, tasks) {
        Ok(Some(tasks)) => match run_of(alloc, tasks, &config) {
            Ok(run) => Ok(Some(run)),
            Err(OutOfMemory) => Err(OutOfMemory),
        },
        Ok(None) => Ok(None),
        Err(OutOfMemory) => Err(OutOfMemory),
    }
}
