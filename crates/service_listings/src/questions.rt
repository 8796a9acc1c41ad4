//! The requests of `ls`.

ghost use Rattle.std.specs.Prelude.{◌≡◌, ◌≤◌, Some, None};
ghost use Rattle.bounded_executor.specs.Desk.{SameDesk};
ghost use Rattle.planning_questions.specs.Questions.{HasQuestions, IsReadyToAsk, progress_of};
ghost use Rattle.s3_model.specs.Places.{IsListed};
ghost use Rattle.service_listings.specs.Listings.{ListsAt};

use crate::listing::Listing;
use planning_desks::PlanningDesk;
use planning_questions::{Halt, ask, list_all};
use s3_model::{Ask, Place, Reply};
use s3_outside::Wire;
use std::alloc::Global;
use std::sync::Wait;

/// Asks for the buckets of a service (Amazon S3 API, ListBuckets).
fn list_buckets<R: Wait, W: Wire + Send + Drop>(
    rt: &R,
    planned: &mut PlanningDesk<W>,
    recursive: bool,
) -> Result<Listing, Halt>
    requires idle { IsReadyToAsk planned.old.desk planned.old.pending }
    requires number { planned.old.number ≤ 2_000_000_000 }
    ensures listed { HasQuestions planned.old.number planned.new.number
        (progress_of planned.old.desk planned.old.journal.items)
        (progress_of planned.new.desk planned.new.journal.items)
        (λ questions. ListsAt planned.old.number None recursive questions result) }
    ensures idle { IsReadyToAsk planned.new.desk planned.new.pending }
    ensures same_desk { SameDesk planned.old.desk planned.new.desk }
    ensures pending { planned.new.pending ≡ planned.old.pending }
    ensures seats { planned.new.seats ≡ planned.old.seats }
{
    let answer = ask(
        rt,
        &mut planned.desk,
        &mut planned.pending,
        &mut planned.journal,
        &mut planned.number,
        Ask::Buckets,
    );
    match answer {
        Ok(Reply::BucketList(buckets)) => Ok(Listing::Buckets(buckets)),
        Ok(_) => unreachable!(),
        Err(why) => Err(why),
    }
}

/// Asks for all pages of what a bucket has below a key (Amazon S3 API, ListObjectsV2).
fn list_pages<R: Wait, W: Wire + Send + Drop>(
    rt: &R,
    alloc: Global,
    planned: &mut PlanningDesk<W>,
    bucket: &str,
    key: &str,
    recursive: bool,
) -> Result<Listing, Halt>
    requires idle { IsReadyToAsk planned.old.desk planned.old.pending }
    requires number { planned.old.number ≤ 2_000_000_000 }
    ensures listed { HasQuestions planned.old.number planned.new.number
        (progress_of planned.old.desk planned.old.journal.items)
        (progress_of planned.new.desk planned.new.journal.items)
        (λ questions. ListsAt planned.old.number (Some (Place.Object bucket.now key.now)) recursive questions result) }
    ensures idle { IsReadyToAsk planned.new.desk planned.new.pending }
    ensures same_desk { SameDesk planned.old.desk planned.new.desk }
    ensures pending { planned.new.pending ≡ planned.old.pending }
    ensures seats { planned.new.seats ≡ planned.old.seats }
{
    let listed = list_all(
        rt,
        alloc,
        &mut planned.desk,
        &mut planned.pending,
        &mut planned.journal,
        &mut planned.number,
        bucket,
        key,
        !recursive,
    );
    match listed {
        Ok(pages) => Ok(Listing::Pages(pages)),
        Err(why) => Err(why),
    }
}

/// Asks for what `ls` lists (AWS CLI Command Reference, `s3 ls`): the buckets of the service where `at` is None, else
/// all that has the key of `at` in front, in its bucket; without `recursive` what stands below a `/` behind that key is
/// listed as one prefix. Each request is a planning job of the first lane, and the lane makes the attempts.
///
/// # Errors
///
/// Those of [`planning_questions::ask`] and [`planning_questions::list_all`].
pub fn list<R: Wait, W: Wire + Send + Drop>(
    rt: &R,
    alloc: Global,
    planned: &mut PlanningDesk<W>,
    at: &Option<Place>,
    recursive: bool,
) -> Result<Listing, Halt>
    requires at { IsListed at.now }
    requires idle { IsReadyToAsk planned.old.desk planned.old.pending }
    requires number { planned.old.number ≤ 2_000_000_000 }
    ensures listed { HasQuestions planned.old.number planned.new.number
        (progress_of planned.old.desk planned.old.journal.items)
        (progress_of planned.new.desk planned.new.journal.items)
        (λ questions. ListsAt planned.old.number at.now recursive questions result) }
    ensures idle { IsReadyToAsk planned.new.desk planned.new.pending }
    ensures same_desk { SameDesk planned.old.desk planned.new.desk }
    ensures pending { planned.new.pending ≡ planned.old.pending }
    ensures seats { planned.new.seats ≡ planned.old.seats }
{
    match at {
        None => list_buckets(rt, planned, recursive),
        Some(Place::Object { bucket, key }) => list_pages(
            rt,
            alloc,
            planned,
            bucket.as_str(),
            key.as_str(),
            recursive,
        ),
        Some(Place::File { .. }) => unreachable!(),
    }
}
