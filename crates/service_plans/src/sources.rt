//! What is asked and looked at for the source of a command.

ghost use Rattle.std.specs.Prelude.{◌≡◌, ◌+◌, ◌≤◌, [], IfOk, IfSome, Some, false};
ghost use Rattle.bounded_executor.specs.Desk.{SameDesk};
ghost use Rattle.command_errands.specs.Errands.{TakesPlaces, is_many, removes, source_of};
ghost use Rattle.planning_questions.specs.Questions.{HasQuestions, IsReadyToAsk, progress_of};
ghost use Rattle.s3_model.specs.Places.{IsObject};
ghost use Rattle.sync_plan.specs.Errands.{AreEntries};
ghost use Rattle.tree_walk.specs.Trees.{OnlyLooks};
ghost use Rattle.service_plans.specs.Local.{FilesSeen, files_seen};
ghost use Rattle.service_plans.specs.Sides.{NamesRemoval, SourceOf, SourceSide, entries_in};

use crate::found::Found;
use crate::halted::Halted;
use crate::local::find_source;
use crate::served::{find_below, find_object};
use bounded_executor::Desk;
use command_errands::{is_many, single_removal};
use lane_workers::LaneWorker;
use pending_jobs::PendingJobs;
use s3_model::{Journal, Place};
use s3_outside::{Files, Wire};
use s3_words::{Command, Verb};
use std::alloc::Global;
use std::sync::Wait;

fn removes(verb: Verb) -> bool
    ensures { result ≡ removes verb }
{
    matches!(verb, Verb::Rm)
}

/// The object that is to be removed.
fn find_removal(alloc: Global, from: &Place) -> Result<Found, Halted>
    requires { IsObject (Some from.now) }
    ensures named { NamesRemoval from.now [] result }
    ensures entries { IfOk result (λ found. AreEntries from.now false (entries_in found.side)) }
{
    let entries = single_removal(alloc, from)?;
    Ok(Found::held(alloc, entries))
}

/// What is asked of a service for a source in a bucket.
#[tactic(auto, using(crate::proofs::SideLemmas::removal_named))]
fn find_objects<R: Wait, W: Wire + Send + Drop>(
    rt: &R,
    alloc: Global,
    desk: &mut Desk<LaneWorker<W>>,
    pending: &mut PendingJobs,
    journal: &mut Journal,
    number: &mut u32,
    command: &Command,
    from: &Place,
) -> Result<Found, Halted>
    requires object { IsObject (Some from.now) }
    requires idle { IsReadyToAsk desk.old pending.old }
    requires number { number.old ≤ 2_000_000_000 }
    ensures asked { (files : FilesSeen) → HasQuestions number.old number.new (progress_of desk.old journal.old.items)
        (progress_of desk.new journal.new.items) (λ questions. SourceSide (removes command.now.verb)
        (is_many command.now) (Some from.now) files number.old questions result) }
    ensures entries { IfOk result (λ found. AreEntries (source_of (is_many command.now) from.now)
        (is_many command.now) (entries_in found.side)) }
    ensures quiet { IfOk result (λ found. found.looked.items ≡ []) }
    ensures few { number.new ≤ number.old + 1_000_001_000 }
    ensures idle { IsReadyToAsk desk.new pending.new }
    ensures same_desk { SameDesk desk.old desk.new }
    ensures pending { pending.new ≡ pending.old }
{
    let Place::Object { bucket, key } = from else {
        unreachable!()
    };
    if is_many(command) {
        return find_below(
            rt,
            alloc,
            desk,
            pending,
            journal,
            number,
            bucket.as_str(),
            key.as_str(),
        );
    }
    if removes(command.verb) {
        return find_removal(alloc, from);
    }
    find_object(rt, alloc, desk, pending, journal, number, from)
}

/// What is asked and looked at for the source of a command.
#[tactic(auto, using(crate::proofs::SideLemmas::source_entries))]
pub(crate) fn find_side<R: Wait, W: Wire + Send + Drop, F: Files>(
    rt: &R,
    alloc: Global,
    desk: &mut Desk<LaneWorker<W>>,
    pending: &mut PendingJobs,
    journal: &mut Journal,
    number: &mut u32,
    command: &Command,
    files: &mut F,
) -> Result<Found, Halted>
    requires places { TakesPlaces command.now.verb command.now.from command.now.to }
    requires idle { IsReadyToAsk desk.old pending.old }
    requires number { number.old ≤ 2_000_000_000 }
    ensures asked { HasQuestions number.old number.new (progress_of desk.old journal.old.items)
        (progress_of desk.new journal.new.items) (λ questions. SourceOf command.now
        (files_seen (F.seen files.new) (F.faults files.old) (F.faults files.new)) number.old questions result) }
    ensures entries { IfOk result (λ found. IfSome command.now.from (λ from. AreEntries
        (source_of (is_many command.now) from) (is_many command.now) (entries_in found.side))) }
    ensures quiet { IfOk result (λ found. IsObject command.now.from → found.looked.items ≡ []) }
    ensures few { number.new ≤ number.old + 1_000_001_000 }
    ensures idle { IsReadyToAsk desk.new pending.new }
    ensures same_desk { SameDesk desk.old desk.new }
    ensures pending { pending.new ≡ pending.old }
    ensures kept { OnlyLooks (F.seen files.old) (F.seen files.new) (F.faults files.old) (F.faults files.new) }
    ensures later { F.faults files.old ≤ F.faults files.new }
{
    match &command.from {
        Some(Place::File { path }) => find_source(alloc, files, is_many(command), path.as_str()),
        Some(from) => find_objects(rt, alloc, desk, pending, journal, number, command, from),
        None => unreachable!(),
    }
}
