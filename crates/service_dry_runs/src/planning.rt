//! The planning of a dry run, over the lane of the first wire.

ghost use Rattle.std.specs.Prelude.{◌≡◌, ◌≤◌, vec_len};
ghost use Rattle.bounded_executor.specs.Desk.{SameDesk};
ghost use Rattle.command_errands.specs.Errands.{TakesPlaces};
ghost use Rattle.lane_workers.specs.LaneWorkers.{carrier_with};
ghost use Rattle.planning_questions.specs.Questions.{HasQuestions, IsReadyToAsk, progress_of};
ghost use Rattle.s3_model.specs.Validity.{IsWithin};
ghost use Rattle.service_plans.specs.Local.{files_seen};
ghost use Rattle.service_plans.specs.Plans.{PlansCommand};
ghost use Rattle.tree_walk.specs.Trees.{OnlyLooks};
ghost use Rattle.service_dry_runs.specs.Endings.{CanEnd};
ghost use Rattle.service_dry_runs.specs.Plannings.{PlansOverFirst, assignment};

use planning_desks::PlanningDesk;
use planning_questions::Halt;
use s3_model::{Journal, Limits, List, Settings};
use s3_outside::{Files, Wire};
use s3_words::Command;
use service_plans::{Halted, Planned, plan_served};
use std::alloc::Global;
use std::sync::Wait;
use std::thread::Threads;

/// What a planning came to, and the journal of its questions.
#[derive(Drop)]
pub(crate) struct PlanningRun {
    pub(crate) planned: Result<Planned, Halted>,
    pub(crate) journal: Journal,
}

/// Plans at a desk.
fn plan_at<R: Wait, W: Wire + Send + Drop, F: Files>(
    rt: &R,
    alloc: Global,
    planning: &mut PlanningDesk<W>,
    command: &mut Command,
    limits: &Limits,
    files: &mut F,
) -> Result<Planned, Halted>
    requires places { TakesPlaces command.old.verb command.old.from command.old.to }
    requires idle { IsReadyToAsk planning.old.desk planning.old.pending }
    requires number { planning.old.number ≤ 999_999_000 }
    ensures planned { HasQuestions planning.old.number planning.new.number
        (progress_of planning.old.desk planning.old.journal.items)
        (progress_of planning.new.desk planning.new.journal.items) (λ questions. PlansCommand command.old limits.now
        (files_seen (F.seen files.new) (F.faults files.old) (F.faults files.new)) planning.old.number questions
        result) }
    ensures idle { IsReadyToAsk planning.new.desk planning.new.pending }
    ensures same_desk { SameDesk planning.old.desk planning.new.desk }
    ensures pending { planning.new.pending ≡ planning.old.pending }
    ensures seats { planning.new.seats ≡ planning.old.seats }
    ensures kept { OnlyLooks (F.seen files.old) (F.seen files.new) (F.faults files.old) (F.faults files.new) }
    ensures later { F.faults files.old ≤ F.faults files.new }
{
    plan_served(
        rt,
        alloc,
        &mut planning.desk,
        &mut planning.pending,
        &mut planning.journal,
        &mut planning.number,
        command,
        limits,
        files,
    )
}

/// Plans over a lane of the first wire, which then stands in its place again.
pub(crate) fn plan_over_first<
    R: Threads + Wait + Clone + Send + Drop + 'static,
    W: Wire + Send + Drop + 'static,
    F: Files,
>(
    rt: &R,
    alloc: Global,
    command: &mut Command,
    settings: &Settings,
    limits: &Limits,
    files: &mut F,
    wires: &mut Vec<W>,
) -> PlanningRun
    requires places { TakesPlaces command.old.verb command.old.from command.old.to }
    requires attempts { IsWithin 1 settings.now.config.attempts 10 }
    requires wire { 1 ≤ vec_len wires.old }
    ensures planned { PlansOverFirst W.seen W.faults (assignment command.old limits.now
        (carrier_with command.old.endpoint settings.now.keys settings.now.config.attempts))
        (files_seen (F.seen files.new) (F.faults files.old) (F.faults files.new)) wires.old.items wires.new.items
        result.journal.items result.planned }
    ensures can_end { CanEnd result.planned }
    ensures kept { OnlyLooks (F.seen files.old) (F.seen files.new) (F.faults files.old) (F.faults files.new) }
    ensures later { F.faults files.old ≤ F.faults files.new }
{
    let opened = PlanningDesk::open(
        rt,
        alloc,
        wires,
        1,
        1,
        &command.endpoint,
        &settings.keys,
        settings.config.attempts,
    );
    match opened {
        Ok(planning) => {
            let mut planning = planning;
            let planned = plan_at(rt, alloc, &mut planning, command, limits, files);
            let journal = planning.close(rt, alloc, wires);
            PlanningRun { planned, journal }
        }
        Err(_) => PlanningRun {
            planned: Err(Halted::Asked(Halt::Memory)),
            journal: List::make(alloc),
        },
    }
}
