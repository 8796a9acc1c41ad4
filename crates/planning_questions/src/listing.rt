//! All pages of a listing.

ghost use Rattle.std.specs.Prelude.{◌≡◌, ◌+◌, ◌<◌, ◌≤◌, false, IfOk, OnOk};
ghost use Rattle.bounded_executor.specs.Desk.{SameDesk};
ghost use Rattle.jobs.specs.Endings.{IsReplyTo};
ghost use Rattle.list_walk.specs.Pages.{new_walk};
ghost use Rattle.planning_questions.specs.Listings.{IsNextPage, Lists, TakesPage, TookPage, next_request};
ghost use Rattle.planning_questions.specs.Questions.{HasQuestions, IsReadyToAsk, progress_of};

use crate::halt::Halt;
use crate::single::ask;
use bounded_executor::Desk;
use lane_workers::LaneWorker;
use list_walk::Pages;
use pending_jobs::PendingJobs;
use s3_model::{Ask, BadListing, Journal, Listed, Op, OutOfMemory, Reply};
use s3_outside::Wire;
use std::alloc::Global;
use std::mem;
use std::sync::Wait;

/// How many pages a listing has at most: each of 1,000,000 entries may have a page of its own, behind 999 without any.
const MOST_PAGES: u32 = 1_000_001_000;

/// The request for the next page.
fn next_request(pages: &Pages) -> Result<Ask, OutOfMemory>
    requires open { pages.now.over ≡ false }
    ensures { IfOk result (λ asked. asked ≡ next_request pages.now) }
{
    match pages.ask() {
        Ok(Some(asked)) => Ok(asked),
        Ok(None) => unreachable!(),
        Err(OutOfMemory) => Err(OutOfMemory),
    }
}

/// The page that a reply to a List is.
fn page_of(said: Reply) -> Listed
    requires { IsReplyTo Op.List said }
    ensures { said ≡ Reply.Listed result }
{
    match said {
        Reply::Listed(page) => page,
        _ => unreachable!(),
    }
}

/// Takes a page, and answers whether more follow.
fn take_page(pages: &mut Pages, page: &Listed) -> Result<bool, Halt>
    ensures takes { TakesPage pages.old page.now pages.new result }
    ensures took { IfOk result (TookPage pages.old pages.new) }
{
    match pages.feed(page) {
        Ok(()) => Ok(page.more),
        Err(BadListing::Memory) => Err(Halt::Memory),
        Err(bad) => Err(Halt::Listing(bad)),
    }
}

/// Asks for the next page and takes it, and answers whether more follow.
fn next_page<R: Wait, W: Wire + Send + Drop>(
    rt: &R,
    desk: &mut Desk<LaneWorker<W>>,
    pending: &mut PendingJobs,
    journal: &mut Journal,
    number: &mut u32,
    pages: &mut Pages,
) -> Result<bool, Halt>
    requires open { pages.old.over ≡ false }
    requires idle { IsReadyToAsk desk.old pending.old }
    requires number { number.old < 4_294_967_295 }
    ensures next { HasQuestions number.old number.new (progress_of desk.old journal.old.items)
        (progress_of desk.new journal.new.items)
        (λ questions. IsNextPage number.old pages.old questions pages.new result) }
    ensures took { IfOk result (TookPage pages.old pages.new) }
    ensures few { number.new ≤ number.old + 1 }
    ensures idle { IsReadyToAsk desk.new pending.new }
    ensures same_desk { SameDesk desk.old desk.new }
    ensures pending { pending.new ≡ pending.old }
{
    let asked = next_request(pages)?;
    match ask(rt, desk, pending, journal, number, asked) {
        Ok(said) => {
            let page = page_of(said);
            let taken = take_page(pages, &page);
            mem::drop(page);
            taken
        }
        Err(why) => Err(why),
    }
}

/// Asks for all pages of the listing of a prefix in a bucket, one after the other, and gathers them (Amazon S3 API,
/// ListObjectsV2). Each page is a planning job of the first lane, numbered from `number` on, which then is the next
/// number; the lane makes the attempts. Where `delimited` is true, keys that have a `/` behind the prefix are listed by
/// their first part alone.
///
/// # Errors
///
/// `Listing` where a page is refused, by [`Pages::feed`]; and those of [`crate::ask`]. Nothing is asked behind it.
pub fn list_all<R: Wait, W: Wire + Send + Drop>(
    rt: &R,
    alloc: Global,
    desk: &mut Desk<LaneWorker<W>>,
    pending: &mut PendingJobs,
    journal: &mut Journal,
    number: &mut u32,
    bucket: &str,
    prefix: &str,
    delimited: bool,
) -> Result<Pages, Halt>
    requires idle { IsReadyToAsk desk.old pending.old }
    requires number { number.old ≤ 2_000_000_000 }
    ensures listed { HasQuestions number.old number.new (progress_of desk.old journal.old.items)
        (progress_of desk.new journal.new.items)
        (λ questions. Lists number.old (new_walk bucket.now prefix.now delimited) questions result) }
    ensures few { number.new ≤ number.old + 1_000_001_000 }
    ensures idle { IsReadyToAsk desk.new pending.new }
    ensures same_desk { SameDesk desk.old desk.new }
    ensures pending { pending.new ≡ pending.old }
{
    let mut pages = Pages::make(alloc, bucket, prefix, delimited)?;
    for _ in 0..MOST_PAGES {
        match next_page(rt, desk, pending, journal, number, &mut pages) {
            Ok(true) => {}
            Ok(false) => return Ok(pages),
            Err(why) => {
                mem::drop(pages);
                return Err(why);
            }
        }
    }
    unreachable!()
}
