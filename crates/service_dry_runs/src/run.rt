//! A dry run that asks something of a service.

ghost use Rattle.std.specs.Prelude.{◌≡◌, ◌≤◌, [], map, string_bytes, vec_len};
ghost use Rattle.command_errands.specs.Errands.{TakesPlaces};
ghost use Rattle.lane_workers.specs.LaneWorkers.{carrier_with};
ghost use Rattle.run_report.specs.Texts.{IsTextOf, mode_in};
ghost use Rattle.s3_model.specs.Validity.{IsWithin};
ghost use Rattle.service_plans.specs.Local.{files_seen};
ghost use Rattle.tree_walk.specs.Trees.{OnlyLooks};
ghost use Rattle.service_dry_runs.specs.Plannings.{assignment};
ghost use Rattle.service_dry_runs.specs.Runs.{GoesServedDry};

use crate::endings::end_planned;
use crate::planning::{PlanningRun, plan_over_first};
use run_report::Executed;
use run_start::Start;
use s3_model::Limits;
use s3_outside::{Files, Wire};
use std::alloc::Global;
use std::mem;
use std::sync::Wait;
use std::thread::Threads;

/// Plans what `cp`, `mv`, `sync` or `rm` would do (AWS CLI Command Reference, `s3`, `--dryrun`), and shows it: a line
/// of each task in order, behind the warnings of planning. No object and no file changes.
///
/// What the plan needs to know is asked of the service over a lane of the first wire, one question after the other,
/// each with at most the attempts of the settings, from 1 to 10, and signed with their keys; then the wire stands in
/// its place again. The other wires stay as they are, and local files are only looked at. The journal has the jobs of
/// the questions.
///
/// The run ends early, without a plan, where [`service_plans::plan_served`] has none: a question that had no success
/// by its last attempt (`Answer`), a page of a listing that is refused (`Listing`), local files that cannot be looked
/// at or a tree of them that is refused (`Walk`), no such source, or a plan that is refused (`Plan`); and wherever
/// memory runs out (`Memory`).
pub fn execute_served_dry<
    R: Threads + Wait + Clone + Send + Drop + 'static,
    W: Wire + Send + Drop + 'static,
    F: Files,
>(
    rt: &R,
    alloc: Global,
    words: &[String],
    start: Start,
    limits: Limits,
    files: &mut F,
    wires: &mut Vec<W>,
) -> Executed
    requires places { TakesPlaces start.command.verb start.command.from start.command.to }
    requires mode { start.command.mode ≡ mode_in (map string_bytes words.now) }
    requires attempts { IsWithin 1 start.settings.config.attempts 10 }
    requires wire { 1 ≤ vec_len wires.old }
    ensures went { GoesServedDry W.seen W.faults (assignment start.command limits
        (carrier_with start.command.endpoint start.settings.keys start.settings.config.attempts))
        (files_seen (F.seen files.new) (F.faults files.old) (F.faults files.new)) wires.old.items wires.new.items
        result.run }
    ensures text { IsTextOf (map string_bytes words.now) [] result.run result.text }
    ensures kept { OnlyLooks (F.seen files.old) (F.seen files.new) (F.faults files.old) (F.faults files.new) }
    ensures later { F.faults files.old ≤ F.faults files.new }
{
    let Start {
        mut command,
        settings,
    } = start;
    let mode = command.mode;
    let PlanningRun { planned, journal } = plan_over_first(
        rt,
        alloc,
        &mut command,
        &settings,
        &limits,
        files,
        wires,
    );
    mem::drop(command);
    mem::drop(settings);
    end_planned(alloc, words, mode, planned, journal)
}
