//! What is asked and looked at for the destination of a command.

ghost use Rattle.std.specs.Prelude.{◌≡◌, ◌+◌, ◌≤◌, [], ℕ, false, true, IfErr, IfOk, IfSome, Some, option_map};
ghost use Rattle.bounded_executor.specs.Desk.{SameDesk};
ghost use Rattle.command_errands.specs.Errands.{TakesPlaces, source_of};
ghost use Rattle.planning_questions.specs.Questions.{HasQuestions, IsReadyToAsk, progress_of};
ghost use Rattle.s3_model.specs.Places.{IsFile, IsObject};
ghost use Rattle.s3_words.specs.Options.{is_sync};
ghost use Rattle.sync_plan.specs.Errands.{AreEntries, AreEntriesAt};
ghost use Rattle.tree_walk.specs.Trees.{OnlyLooks};
ghost use Rattle.service_plans.specs.Local.{files_seen};
ghost use Rattle.service_plans.specs.Sides.{
  DestOf,
  DestSide,
  HasEntries,
  HasNoNames,
  LooksForFolder,
  NamesBelow,
  entries_in,
};

use crate::found::Found;
use crate::halted::Halted;
use crate::local::{find_tree, look};
use crate::served::find_below;
use bounded_executor::Desk;
use lane_workers::LaneWorker;
use pending_jobs::PendingJobs;
use s3_model::{Entries, Journal, Place};
use s3_outside::{Files, Shape, Wire};
use s3_words::{Command, Verb};
use std::alloc::Global;
use std::sync::Wait;

/// What a plan needs to know of a destination.
#[derive(Drop)]
pub struct Dest {
    /// The one name goes into a folder that is there.
    pub into_folder: bool,
    /// What a `sync` is compared with; else no entries.
    pub found: Found,
}

fn is_sync(verb: Verb) -> bool
    ensures { result ≡ is_sync verb }
{
    matches!(verb, Verb::Sync)
}

/// A destination of which no names are wanted.
fn no_names(alloc: Global, into_folder: bool) -> Dest
    ensures { HasNoNames result into_folder }
{
    Dest {
        into_folder,
        found: Found::held(alloc, Entries::make(alloc)),
    }
}

/// Whether the one name that is downloaded goes into a folder that is there.
fn find_folder<F: Files>(alloc: Global, files: &mut F, path: &str) -> Result<Dest, Halted>
    ensures asked { LooksForFolder (files_seen (F.seen files.new) (F.faults files.old) (F.faults files.new))
        path.now [] result }
    ensures none { IfOk result (λ dest. HasEntries dest.found []) }
    ensures kept { OnlyLooks (F.seen files.old) (F.seen files.new) (F.faults files.old) (F.faults files.new) }
    ensures later { F.faults files.old ≤ F.faults files.new }
{
    let shape = look(files, path)?;
    Ok(no_names(alloc, matches!(shape, Shape::Folder)))
}

/// All names below a place.
fn find_names<R: Wait, W: Wire + Send + Drop, F: Files>(
    rt: &R,
    alloc: Global,
    desk: &mut Desk<LaneWorker<W>>,
    pending: &mut PendingJobs,
    journal: &mut Journal,
    number: &mut u32,
    to: &Place,
    files: &mut F,
) -> Result<Found, Halted>
    requires idle { IsReadyToAsk desk.old pending.old }
    requires number { number.old ≤ 2_000_000_000 }
    ensures asked { HasQuestions number.old number.new (progress_of desk.old journal.old.items)
        (progress_of desk.new journal.new.items) (λ questions. NamesBelow to.now
        (files_seen (F.seen files.new) (F.faults files.old) (F.faults files.new)) number.old questions result) }
    ensures entries { IfOk result (λ found. AreEntries (source_of true to.now) true (entries_in found.side)) }
    ensures quiet { IfOk result (λ found. IsObject (Some to.now) → found.looked.items ≡ []) }
    ensures few { number.new ≤ number.old + 1_000_001_000 }
    ensures idle { IsReadyToAsk desk.new pending.new }
    ensures same_desk { SameDesk desk.old desk.new }
    ensures pending { pending.new ≡ pending.old }
    ensures kept { OnlyLooks (F.seen files.old) (F.seen files.new) (F.faults files.old) (F.faults files.new) }
    ensures later { F.faults files.old ≤ F.faults files.new }
{
    match to {
        Place::Object { bucket, key } => find_below(
            rt,
            alloc,
            desk,
            pending,
            journal,
            number,
            bucket.as_str(),
            key.as_str(),
        ),
        Place::File { path } => find_tree(alloc, files, path.as_str()),
    }
}

/// What is looked at for a destination that nothing is compared with.
fn find_plain<F: Files>(alloc: Global, command: &Command, files: &mut F) -> Result<Dest, Halted>
    ensures asked { (number : ℕ) → DestSide false command.now.recursive command.now.to (files_seen (F.seen files.new)
        (F.faults files.old) (F.faults files.new)) number [] result }
    ensures none { IfOk result (λ dest. HasEntries dest.found []) }
    ensures kept { OnlyLooks (F.seen files.old) (F.seen files.new) (F.faults files.old) (F.faults files.new) }
    ensures later { F.faults files.old ≤ F.faults files.new }
{
    if command.recursive {
        return Ok(no_names(alloc, false));
    }
    match &command.to {
        Some(Place::File { path }) => find_folder(alloc, files, path.as_str()),
        _ => Ok(no_names(alloc, false)),
    }
}

/// What is asked and looked at for the destination of a command.
#[tactic(auto, using(crate::proofs::SideLemmas::dest_plain, crate::proofs::SideLemmas::no_entries_at))]
pub(crate) fn find_dest<R: Wait, W: Wire + Send + Drop, F: Files>(
    rt: &R,
    alloc: Global,
    desk: &mut Desk<LaneWorker<W>>,
    pending: &mut PendingJobs,
    journal: &mut Journal,
    number: &mut u32,
    command: &Command,
    files: &mut F,
) -> Result<Dest, Halted>
    requires places { TakesPlaces command.now.verb command.now.from command.now.to }
    requires idle { IsReadyToAsk desk.old pending.old }
    requires number { number.old ≤ 2_000_000_000 }
    ensures asked { HasQuestions number.old number.new (progress_of desk.old journal.old.items)
        (progress_of desk.new journal.new.items) (λ questions. DestOf command.now
        (files_seen (F.seen files.new) (F.faults files.old) (F.faults files.new)) number.old questions result) }
    ensures entries { IfOk result (λ dest. AreEntriesAt (option_map (source_of true) command.now.to) true
        (entries_in dest.found.side)) }
    ensures quiet { IfOk result (λ dest. IsFile command.now.from → dest.found.looked.items ≡ []) }
    ensures few { number.new ≤ number.old + 1_000_001_000 }
    ensures idle { IsReadyToAsk desk.new pending.new }
    ensures same_desk { SameDesk desk.old desk.new }
    ensures pending { pending.new ≡ pending.old }
    ensures kept { OnlyLooks (F.seen files.old) (F.seen files.new) (F.faults files.old) (F.faults files.new) }
    ensures later { F.faults files.old ≤ F.faults files.new }
{
    if !is_sync(command.verb) {
        return find_plain(alloc, command, files);
    }
    let Some(to) = &command.to else {
        unreachable!()
    };
    let found = find_names(rt, alloc, desk, pending, journal, number, to, files)?;
    Ok(Dest {
        into_folder: false,
        found,
    })
}
