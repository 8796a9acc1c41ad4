//! What a service tells of one side of a plan.

ghost use Rattle.std.specs.Prelude.{◌≡◌, ◌+◌, ◌<◌, ◌≤◌, IfOk, Some, false, true};
ghost use Rattle.bounded_executor.specs.Desk.{SameDesk};
ghost use Rattle.command_errands.specs.Errands.{prefix_of};
ghost use Rattle.jobs.specs.Endings.{IsReplyTo};
ghost use Rattle.planning_questions.specs.Questions.{HasQuestions, IsReadyToAsk, progress_of};
ghost use Rattle.list_walk.specs.Pages.{AllBeginWith};
ghost use Rattle.s3_model.specs.Entries.{IsAscending, keys_of};
ghost use Rattle.s3_model.specs.Places.{IsObject, bucket_at, key_at};
ghost use Rattle.s3_model.specs.declared.places.Place.TheVariants as place;
ghost use Rattle.sync_plan.specs.Errands.{AreEntries};
ghost use Rattle.service_plans.specs.Sides.{HasEntries, HeadsObject, IsTold, ListsBelow, entries_in};

use crate::found::Found;
use crate::halted::Halted;
use bounded_executor::Desk;
use command_errands::single_object;
use lane_workers::LaneWorker;
use list_walk::Pages;
use pending_jobs::PendingJobs;
use planning_questions::{ask, list_all};
use s3_model::{Ask, Journal, Op, OutOfMemory, Place, Reply, Text, ends_in_slash};
use s3_outside::Wire;
use std::alloc::Global;
use std::sync::Wait;

/// The prefix of the keys that stand below a key; that of a bucket's whole is empty.
fn prefix_of(alloc: Global, key: &str) -> Result<Text, OutOfMemory>
    ensures { IfOk result (λ prefix. prefix ≡ prefix_of key.now) }
{
    if key.is_empty() || ends_in_slash(key) {
        return Text::of(alloc, key);
    }
    Text::joined(alloc, &[key, "/"])
}

/// All objects below a key, by the pages of their listing.
pub(crate) fn find_below<R: Wait, W: Wire + Send + Drop>(
    rt: &R,
    alloc: Global,
    desk: &mut Desk<LaneWorker<W>>,
    pending: &mut PendingJobs,
    journal: &mut Journal,
    number: &mut u32,
    bucket: &str,
    key: &str,
) -> Result<Found, Halted>
    requires idle { IsReadyToAsk desk.old pending.old }
    requires number { number.old ≤ 2_000_000_000 }
    ensures asked { HasQuestions number.old number.new (progress_of desk.old journal.old.items)
        (progress_of desk.new journal.new.items)
        (λ questions. ListsBelow number.old bucket.now key.now questions result) }
    ensures entries { IfOk result (λ found.
        AreEntries (place.Object bucket.now (prefix_of key.now)) true (entries_in found.side)) }
    ensures few { number.new ≤ number.old + 1_000_001_000 }
    ensures idle { IsReadyToAsk desk.new pending.new }
    ensures same_desk { SameDesk desk.old desk.new }
    ensures pending { pending.new ≡ pending.old }
{
    let prefix = prefix_of(alloc, key)?;
    let pages = list_all(
        rt,
        alloc,
        desk,
        pending,
        journal,
        number,
        bucket,
        prefix.as_str(),
        false,
    )?;
    Ok(listed(alloc, pages))
}

/// What the pages of a listing have.
fn listed(alloc: Global, pages: Pages) -> Found
    ensures entries { HasEntries result pages.gathered.entries }
    ensures ascending { IsAscending (keys_of pages.gathered.entries) }
    ensures within { AllBeginWith pages.prefix (keys_of pages.gathered.entries) }
{
    let _ = pages.entries();
    Found::listed(alloc, pages)
}

/// The entry that a reply to a Head tells of an object.
fn told(alloc: Global, of: &Place, said: Reply) -> Result<Found, OutOfMemory>
    requires object { IsObject (Some of.now) }
    requires reply { IsReplyTo Op.Head said }
    ensures told { IfOk result (IsTold of.now said) }
    ensures entries { IfOk result (λ found. AreEntries of.now false (entries_in found.side)) }
{
    match said {
        Reply::Found { size, etag, micros } => {
            let entries = single_object(alloc, of, size, etag, micros)?;
            Ok(Found::held(alloc, entries))
        }
        _ => unreachable!(),
    }
}

/// The request for what an object is.
fn head_of(of: &Place) -> Result<Ask, OutOfMemory>
    requires { IsObject (Some of.now) }
    ensures { IfOk result (λ asked. asked ≡ Ask.Head (bucket_at (Some of.now)) (key_at (Some of.now))) }
{
    match of {
        Place::Object { bucket, key } => Ok(Ask::Head {
            bucket: bucket.copy()?,
            key: key.copy()?,
        }),
        Place::File { .. } => unreachable!(),
    }
}

/// One object, by a Head.
pub(crate) fn find_object<R: Wait, W: Wire + Send + Drop>(
    rt: &R,
    alloc: Global,
    desk: &mut Desk<LaneWorker<W>>,
    pending: &mut PendingJobs,
    journal: &mut Journal,
    number: &mut u32,
    of: &Place,
) -> Result<Found, Halted>
    requires object { IsObject (Some of.now) }
    requires idle { IsReadyToAsk desk.old pending.old }
    requires number { number.old ≤ 2_000_000_000 }
    ensures asked { HasQuestions number.old number.new (progress_of desk.old journal.old.items)
        (progress_of desk.new journal.new.items)
        (λ questions. HeadsObject number.old (bucket_at (Some of.now)) (key_at (Some of.now)) questions result) }
    ensures entries { IfOk result (λ found. AreEntries of.now false (entries_in found.side)) }
    ensures few { number.new ≤ number.old + 1 }
    ensures idle { IsReadyToAsk desk.new pending.new }
    ensures same_desk { SameDesk desk.old desk.new }
    ensures pending { pending.new ≡ pending.old }
{
    let asked = head_of(of)?;
    let said = ask(rt, desk, pending, journal, number, asked)?;
    Ok(told(alloc, of, said)?)
}
