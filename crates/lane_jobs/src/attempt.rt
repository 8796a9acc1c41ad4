//! One attempt of a job: the look at its cell, the pause, and the talk.

ghost use Rattle.std.specs.Prelude.{◌≡◌, ◌≤◌, ◌+◌, ◌-◌, ◌^◌, [], None, IfSome, IsSome, map, min, unwrap_or};
ghost use Rattle.s3_model.specs.Talks.{Pause};
ghost use Rattle.job_terms.specs.Attempts.{pauses_before};
ghost use Rattle.attempts.specs.Attempts.{HasStatusIfRefused, IfMade, IsGet, IsOfSomeTalk, signed_request};
ghost use Rattle.jobs.specs.declared.ending.Ending.TheVariants as ending;
ghost use Rattle.job_terms.specs.Gains.{Gains};
ghost use Rattle.lane_jobs.specs.Lanes.{Attempts, IsNotedBefore, Looks, ending_of, noted_before};

use attempts::{Attempted, Client, Judged, Payload, attempt};
use jobs::{CancelCell, Ending};
use s3_model::{Ask, Bytes, Class, Reason, Text};
use s3_outside::Wire;
use std::alloc::Global;

/// The reason of a job's cell, if it has a cell and that has one.
pub(crate) fn look(cell: &mut Option<CancelCell>) -> Option<Reason>
    ensures { Looks cell.old cell.new result }
{
    match cell {
        Some(cell) => cell.reason(),
        None => None,
    }
}

/// How a job ends that was refused by an answer with this status.
fn refused(status: Option<u16>, code: Text, message: Text) -> Ending
    requires { IsSome status }
    ensures { result ≡ ending.Refused (unwrap_or status 0) code message }
{
    let Some(status) = status else { unreachable!() };
    Ending::Refused {
        status,
        code,
        message,
    }
}

/// How a job ends whose last attempt came to this.
pub(crate) fn ending_of(judged: Judged) -> Ending
    requires { HasStatusIfRefused judged }
    ensures { result ≡ ending_of judged }
{
    let Judged { class, status } = judged;
    match class {
        Class::Success(reply) => Ending::Gained(reply),
        Class::Refusal { code, message } => refused(status, code, message),
        Class::Uncertain(why) => Ending::Uncertain(why),
    }
}

/// The seconds before an attempt that is not the first: 1 before the second, each time twice as many, and at most 20.
fn seconds_before(number: u32) -> u32
    requires { (2 ≤ number) × (number ≤ 10) }
    ensures { result ≡ min 20 (2 ^ (number - 2)) }
{
    20.min(2u32.pow(number - 2))
}

/// Waits before the attempt of that number, unless it is the first.
fn pause_before<W: Wire>(wire: &mut W, number: u32)
    requires { number ≤ 10 }
    ensures noted { Gains (W.seen wire.old) (W.seen wire.new) (IsNotedBefore number) }
    ensures later { W.faults wire.old ≤ W.faults wire.new }
{
    if number > 1 {
        wire.pause(seconds_before(number));
    }
}

/// Makes the attempt of that number: waits before it, and makes one talk.
pub(crate) fn attempt_once<W: Wire>(
    alloc: Global,
    wire: &mut W,
    client: &mut Client,
    ask: &Ask,
    payload: &Payload<'_>,
    limit: Option<u64>,
    into: &mut Bytes,
    number: u32,
) -> Attempted
    requires limit { IfSome limit (λ most. IsGet ask.now × (most ≤ into.old.room)) }
    requires number { number ≤ 10 }
    ensures gained { Gains (W.seen wire.old) (W.seen wire.new)
        (Attempts (signed_request client.old.endpoint client.old.signer ask.now payload.now limit)
        number result into.new.bytes) }
    ensures classed { IfMade result (λ judged. IsOfSomeTalk ask.now limit judged.class into.new.bytes) }
    ensures refused { IfMade result HasStatusIfRefused }
    ensures later { W.faults wire.old ≤ W.faults wire.new }
    ensures endpoint { client.new.endpoint ≡ client.old.endpoint }
    ensures keys { client.new.signer ≡ client.old.signer }
    ensures untouched { limit ≡ None → into.new ≡ into.old }
    ensures room { into.new.room ≡ into.old.room }
{
    pause_before(wire, number);
    attempt(alloc, wire, client, ask, payload, limit, into, true)
}
