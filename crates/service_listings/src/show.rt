//! The whole of `ls` over lanes.

ghost use Rattle.std.specs.Prelude.{◌≡◌, ◌≤◌, IfErr, IfOk, vec_len};
ghost use Rattle.lane_workers.specs.LaneWorkers.{carrier_with};
ghost use Rattle.s3_model.specs.Places.{IsListed};
ghost use Rattle.s3_model.specs.Validity.{IsWithin};
ghost use Rattle.service_listings.specs.Listings.{IsDatedListing, IsNoStranger, IsShownBy, key_of};
ghost use Rattle.service_listings.specs.Showings.{Lookup, HasListed, HasShown};

use crate::listing::{Listing, Shown};
use crate::questions::list;
use planning_desks::PlanningDesk;
use planning_questions::Halt;
use s3_model::{Endpoint, Journal, List, Place, Settings};
use s3_outside::Wire;
use std::alloc::Global;
use std::mem;
use std::sync::Wait;
use std::thread::Threads;

/// What `ls` came to, and the journal of its requests.
#[derive(Drop)]
pub struct ListingRun {
    pub shown: Result<Shown, Halt>,
    pub journal: Journal,
}

/// Lists over lanes, and ends them.
fn list_over<R: Threads + Wait + Clone + Send + Drop + 'static, W: Wire + Send + Drop + 'static>(
    rt: &R,
    alloc: Global,
    wires: &mut Vec<W>,
    lanes: u32,
    endpoint: &Endpoint,
    settings: &Settings,
    at: &Option<Place>,
    recursive: bool,
) -> (Result<Listing, Halt>, Journal)
    requires at { IsListed at.now }
    requires lanes { (1 ≤ lanes) × (lanes ≤ 65535) }
    requires count { lanes ≤ vec_len wires.old }
    requires attempts { IsWithin 1 settings.now.config.attempts 10 }
    ensures listed { let lookup : Lookup = record {
      at = at.now;
      recursive = recursive;
      carrier = carrier_with endpoint.now settings.now.keys settings.now.config.attempts;
      lanes = lanes;
    } in HasListed W.seen W.faults lookup wires.old.items wires.new.items result.1.items result.0 }
    ensures dated { IfOk result.0 IsDatedListing }
    ensures no_stranger { IfErr result.0 IsNoStranger }
{
    let opened = PlanningDesk::open(
        rt,
        alloc,
        wires,
        lanes,
        1,
        endpoint,
        &settings.keys,
        settings.config.attempts,
    );
    match opened {
        Ok(planned) => {
            let mut planned = planned;
            let listed = list(rt, alloc, &mut planned, at, recursive);
            let journal = planned.close(rt, alloc, wires);
            (listed, journal)
        }
        Err(_) => (Err(Halt::Memory), List::make(alloc)),
    }
}

/// The key of a path, or none.
fn key_of(at: &Option<Place>) -> &str
    ensures { result.now ≡ key_of at.now }
{
    match at {
        Some(Place::Object { bucket: _, key }) => key.as_str(),
        _ => "",
    }
}

/// What is shown of what was listed.
fn shown_of(
    alloc: Global,
    listed: Result<Listing, Halt>,
    key: &str,
    recursive: bool,
) -> Result<Shown, Halt>
    requires dated { IfOk listed IsDatedListing }
    requires no_stranger { IfErr listed IsNoStranger }
    ensures shown { IsShownBy key.now recursive listed result }
    ensures no_stranger { IfErr result IsNoStranger }
{
    match listed {
        Ok(listing) => {
            let rows = listing.rows(alloc, key, recursive);
            mem::drop(listing);
            match rows {
                Ok(shown) => Ok(shown),
                Err(_) => Err(Halt::Memory),
            }
        }
        Err(why) => Err(why),
    }
}

/// What `ls` shows (AWS CLI Command Reference, `s3 ls`): the buckets of the service where `at` is None, else what has
/// the key of `at` in front, in its bucket. Without `recursive` what stands below a `/` behind that key is shown as one
/// prefix. Nothing is shown before all was listed.
///
/// The first `lanes` wires, 1 to 65,535, become lanes, each in a thread of its own, and stand in their places again.
/// The requests are planning jobs of the first lane, numbered from 0, each with at most as many attempts as `settings`
/// say, from 1 to 10, signed with their keys; the journal has the events of each as it is given and as it comes.
///
/// # Errors
///
/// `Listing` where a page is refused, by [`list_walk::Pages::feed`]; `Answer` where a request had no success by its
/// last attempt; `Memory` where memory ran out; never `Stranger`. Nothing is asked after it.
pub fn show_listing<
    R: Threads + Wait + Clone + Send + Drop + 'static,
    W: Wire + Send + Drop + 'static,
>(
    rt: &R,
    alloc: Global,
    wires: &mut Vec<W>,
    lanes: u32,
    endpoint: &Endpoint,
    settings: &Settings,
    at: &Option<Place>,
    recursive: bool,
) -> ListingRun
    requires at { IsListed at.now }
    requires lanes { (1 ≤ lanes) × (lanes ≤ 65535) }
    requires count { lanes ≤ vec_len wires.old }
    requires attempts { IsWithin 1 settings.now.config.attempts 10 }
    ensures shown { let lookup : Lookup = record {
      at = at.now;
      recursive = recursive;
      carrier = carrier_with endpoint.now settings.now.keys settings.now.config.attempts;
      lanes = lanes;
    } in HasShown W.seen W.faults lookup wires.old.items wires.new.items result.journal.items result.shown }
    ensures no_stranger { IfErr result.shown IsNoStranger }
{
    let (listed, journal) = list_over(rt, alloc, wires, lanes, endpoint, settings, at, recursive);
    ListingRun {
        shown: shown_of(alloc, listed, key_of(at), recursive),
        journal,
    }
}
