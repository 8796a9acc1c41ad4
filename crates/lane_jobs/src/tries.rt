//! The attempts of one job.

ghost use Rattle.std.specs.Prelude.{◌≡◌, ◌≤◌, ◌<◌, ◌++◌, [], true, None, IfErr, IfOk, IfSome, IsSome, length};
ghost use Rattle.s3_model.specs.Classes.{is_tried_again};
ghost use Rattle.attempts.specs.Attempts.{HasStatusIfRefused, IfMade, IsGet, signed_request, tries_of};
ghost use Rattle.lane_jobs.specs.Lanes.{Carries, EndsIt, KeepsCell, ending_by, reason_of};

use crate::attempt::{attempt_once, ending_of, look};
use answer_classes::again;
use attempts::{Attempted, Client, Judged, Payload, mark_of};
use jobs::{CancelCell, Ending};
use s3_model::{Ask, Bytes, Reason, Tries};
use s3_outside::Wire;
use std::alloc::Global;
use std::mem;

/// The marks of a job's attempts, and how it ends.
#[derive(Drop)]
pub(crate) struct Went {
    pub tries: Tries,
    pub ending: Ending,
}

/// How a job ends whose cell gave this reason before its next attempt: as its last attempt says, if it made one.
fn ending_by(reason: Reason, last: Option<Judged>) -> Ending
    requires { IfSome last HasStatusIfRefused }
    ensures { result ≡ ending_by reason last }
{
    match last {
        Some(judged) => ending_of(judged),
        None => Ending::Cancelled(reason),
    }
}

/// Marks an attempt that was made. One that is tried again is handed back, any other ends the job.
fn came_to(tries: &mut Tries, attempted: Attempted) -> Result<Judged, Ending>
    requires room { length tries.old < 10 }
    requires refused { IfMade attempted HasStatusIfRefused }
    ensures tries { tries.new ≡ tries.old ++ tries_of attempted }
    ensures made { IfOk result (λ judged. attempted ≡ Attempted.Made judged) }
    ensures again { IfOk result (λ judged. is_tried_again judged.class ≡ true) }
    ensures ends { IfErr result (EndsIt attempted) }
{
    match attempted {
        Attempted::Made(judged) => {
            tries.add(mark_of(&judged.class));
            if again(&judged.class) {
                Ok(judged)
            } else {
                Err(ending_of(judged))
            }
        }
        Attempted::Memory => Err(Ending::Memory),
    }
}

/// Makes the attempts of a request from number `had + 1` up to number `most`, until one is not tried again. Before
/// each, and before the pause that precedes it, the cell is looked at, and a reason ends the job.
pub(crate) fn make_attempts<W: Wire>(
    alloc: Global,
    wire: &mut W,
    client: &mut Client,
    ask: &Ask,
    payload: &Payload<'_>,
    limit: Option<u64>,
    into: &mut Bytes,
    cell: &mut Option<CancelCell>,
    had: u32,
    most: u32,
) -> Went
    requires limit { IfSome limit (λ most. IsGet ask.now × (most ≤ into.old.room)) }
    requires left { had < most }
    requires most { most ≤ 10 }
    ensures carried { Carries (signed_request client.old.endpoint client.old.signer ask.now payload.now limit) had
        most (reason_of cell.new) into.new.bytes (W.seen wire.old) (W.seen wire.new) result.tries result.ending }
    ensures stopped { IsSome (reason_of cell.old) → result.tries ≡ [] }
    ensures cell { KeepsCell cell.old cell.new }
    ensures later { W.faults wire.old ≤ W.faults wire.new }
    ensures endpoint { client.new.endpoint ≡ client.old.endpoint }
    ensures keys { client.new.signer ≡ client.old.signer }
    ensures untouched { limit ≡ None → into.new ≡ into.old }
    ensures room { into.new.room ≡ into.old.room }
{
    let mut tries = Tries::none();
    let mut last = None;
    for number in had + 1..most + 1 {
        if let Some(reason) = look(cell) {
            return Went {
                tries,
                ending: ending_by(reason, last),
            };
        }
        mem::drop(last);
        let attempted = attempt_once(alloc, wire, client, ask, payload, limit, into, number);
        match came_to(&mut tries, attempted) {
            Ok(judged) => last = Some(judged),
            Err(ending) => return Went { tries, ending },
        }
    }
    let Some(judged) = last else { unreachable!() };
    Went {
        tries,
        ending: ending_of(judged),
    }
}
