//! What a command is going to do.

ghost use Rattle.std.specs.Prelude.{◌≡◌, ◌⊎◌, ◌+◌, ◌≤◌, ◌++◌, [], IfOk, IfSome, OnOk, option_map, true};
ghost use Rattle.bounded_executor.specs.Desk.{SameDesk};
ghost use Rattle.command_errands.specs.Errands.{TakesPlaces, is_many, source_of, without_errand};
ghost use Rattle.planning_questions.specs.Questions.{HasQuestions, IsReadyToAsk, progress_of};
ghost use Rattle.sync_plan.specs.Errands.{AreEntries, AreEntriesAt};
ghost use Rattle.tree_walk.specs.Trees.{OnlyLooks};
ghost use Rattle.service_plans.specs.Local.{files_seen};
ghost use Rattle.service_plans.specs.Plans.{PlansBoth, PlansCommand};
ghost use Rattle.service_plans.specs.Sides.{entries_in};

use crate::dests::{Dest, find_dest};
use crate::found::Found;
use crate::halted::Halted;
use crate::looked::of_both;
use crate::sources::find_side;
use crate::tasks::plan_sides;
use bounded_executor::Desk;
use lane_workers::LaneWorker;
use pending_jobs::PendingJobs;
use s3_model::{Journal, Limits, Plan, Warnings};
use s3_outside::{Files, Wire};
use s3_words::Command;
use std::alloc::Global;
use std::mem;
use std::sync::Wait;

/// The plan of a command, and what looking at local files warns of.
#[derive(Drop)]
pub struct Planned {
    pub plan: Plan,
    /// Names that are no text, and then each thing that is neither file nor folder.
    pub looked: Warnings,
}

/// The plan of a command, by what was found at its two sides, of which one is quiet.
fn plan_found(
    alloc: Global,
    command: &mut Command,
    limits: &Limits,
    source: Found,
    dest: Dest,
) -> Result<Planned, Halted>
    requires places { TakesPlaces command.old.verb command.old.from command.old.to }
    requires source { IfSome command.old.from (λ from. AreEntries (source_of (is_many command.old) from)
        (is_many command.old) (entries_in source.side)) }
    requires dest { AreEntriesAt (option_map (source_of true) command.old.to) true (entries_in dest.found.side) }
    requires quiet { (source.looked.items ≡ []) ⊎ (dest.found.looked.items ≡ []) }
    ensures plans { PlansBoth command.old limits.now source dest result }
    ensures rest { command.new ≡ without_errand command.old }
{
    match plan_sides(alloc, command, limits, &source, &dest) {
        Ok(plan) => {
            let looked = of_both(source.looked, dest.found.looked);
            Ok(Planned { plan, looked })
        }
        Err(why) => {
            mem::drop(source);
            mem::drop(dest);
            Err(why)
        }
    }
}

/// What `cp`, `mv`, `sync` or `rm` is going to do: it asks the service for the entries of the source, or looks at local
/// files, then for those of a destination that `sync` is compared with, and plans (AWS CLI Command Reference, `s3`).
/// Each question is a planning job of the first lane, numbered from `number` on, which is then the next one. A single
/// object is asked for by a Head, many by a listing of all keys below the place; for the removal of a single object
/// nothing is asked. For the download of one object its destination is looked at behind the Head: a folder that is there
/// gets the object's base name put into it.
/// The command gives up its places, filters and content type to the plan; the rest of it stays.
///
/// # Errors
///
/// `Asked` as [`planning_questions::ask`] and [`planning_questions::list_all`], and wherever memory runs out; `Walk`
/// where a call on local files fails or a tree of them is refused, by [`tree_walk::walk`]; `Plan` where a local source is
/// none, by [`command_errands::local_source`], and where the plan is refused, by [`sync_plan::plan_sync`]. Nothing is
/// asked or looked at behind the first of them.
#[tactic(auto, using(tree_walk::proofs::WalkLemmas::keeps_then))]
pub fn plan_served<R: Wait, W: Wire + Send + Drop, F: Files>(
    rt: &R,
    alloc: Global,
    desk: &mut Desk<LaneWorker<W>>,
    pending: &mut PendingJobs,
    journal: &mut Journal,
    number: &mut u32,
    command: &mut Command,
    limits: &Limits,
    files: &mut F,
) -> Result<Planned, Halted>
    requires places { TakesPlaces command.old.verb command.old.from command.old.to }
    requires idle { IsReadyToAsk desk.old pending.old }
    requires number { number.old ≤ 999_999_000 }
    ensures planned { HasQuestions number.old number.new (progress_of desk.old journal.old.items)
        (progress_of desk.new journal.new.items) (λ questions. PlansCommand command.old limits.now
        (files_seen (F.seen files.new) (F.faults files.old) (F.faults files.new)) number.old questions result) }
    ensures few { number.new ≤ number.old + 2_000_002_000 }
    ensures idle { IsReadyToAsk desk.new pending.new }
    ensures same_desk { SameDesk desk.old desk.new }
    ensures pending { pending.new ≡ pending.old }
    ensures kept { OnlyLooks (F.seen files.old) (F.seen files.new) (F.faults files.old) (F.faults files.new) }
    ensures later { F.faults files.old ≤ F.faults files.new }
    ensures rest { OnOk result (command.new ≡ without_errand command.old) }
    ensures left { (command.new ≡ command.old) ⊎ (command.new ≡ without_errand command.old) }
{
    let source = find_side(rt, alloc, desk, pending, journal, number, command, files)?;
    match find_dest(rt, alloc, desk, pending, journal, number, command, files) {
        Ok(dest) => plan_found(alloc, command, limits, source, dest),
        Err(why) => {
            mem::drop(source);
            Err(why)
        }
    }
}
