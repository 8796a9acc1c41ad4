//! A dry run that asks nothing of a service.

ghost use Rattle.std.specs.Prelude.{◌≡◌, ◌≤◌, [], map, string_bytes};
ghost use Rattle.tree_walk.specs.Trees.{OnlyLooks};
ghost use Rattle.upload_plans.specs.Commands.{IsOffline};
ghost use Rattle.run_report.specs.Texts.{IsTextOf, mode_in};
ghost use Rattle.dry_runs.specs.Found.{files_seen};
ghost use Rattle.dry_runs.specs.Runs.{GoesDry};

use crate::endings::end_dry;
use crate::plans::{Planned, plan_here};
use run_report::{Executed, end_early};
use s3_model::Limits;
use s3_outside::Files;
use s3_words::Command;
use std::alloc::Global;

/// Plans a dry run that asks nothing of a service, and shows what it would do: a line of each task in order, behind the
/// warnings of planning. Nothing is sent, and no file changes.
#[tactic(auto, using(crate::proofs::RunLemmas::are_looking, crate::proofs::RunLemmas::are_shown, crate::proofs::RunLemmas::have_places))]
pub fn execute_dry<F: Files>(
    alloc: Global,
    words: &[String],
    command: Command,
    limits: Limits,
    files: &mut F,
) -> Executed
    requires offline { IsOffline command }
    requires mode { command.mode ≡ mode_in (map string_bytes words.now) }
    ensures went { GoesDry command limits (files_seen (F.seen files.old) (F.seen files.new) (F.faults files.old)
        (F.faults files.new)) result.run }
    ensures text { IsTextOf (map string_bytes words.now) [] result.run result.text }
    ensures kept { OnlyLooks (F.seen files.old) (F.seen files.new) (F.faults files.old) (F.faults files.new) }
    ensures later { F.faults files.old ≤ F.faults files.new }
{
    let mode = command.mode;
    match plan_here(alloc, command, limits, files) {
        Ok(Planned { looked, plan }) => end_dry(alloc, words, mode, looked, plan),
        Err(fatal) => end_early(alloc, words, fatal),
    }
}
