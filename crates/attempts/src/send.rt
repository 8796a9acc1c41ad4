//! A request is signed and sent, in one talk, and its answer is judged.

ghost use Rattle.std.specs.Prelude.{◌≡◌, ◌≢◌, ◌≤◌, false, true, Some, None, IfSome, OnErr, OnOk};
ghost use Rattle.s3_model.specs.Counts.{Rose};
ghost use Rattle.answer_dates.specs.Dates.{HasDates};
ghost use Rattle.attempts.specs.Attempts.{
  HasStatusIfRefused,
  IfMade,
  IsGet,
  IsOfSomeTalk,
  IsSilent,
  Makes,
  signed_request,
};
ghost use Rattle.job_terms.specs.Gains.{Gains};
ghost use Rattle.attempts.specs.Steps.{IsAnsweredBy, IsJudged, IsSigned, status_of};
ghost use Rattle.answer_classes.specs.Showing.{is_head};

use crate::client::Client;
use crate::payload::Payload;
use answer_classes::classify;
use http_exchange::exchange;
use s3_model::{Ask, Bytes, Class, OutOfMemory, Talked, Why};
use s3_outside::Wire;
use std::alloc::Global;

/// What one talk came to.
#[derive(Drop)]
pub struct Judged {
    /// What the answer means.
    pub class: Class,
    /// The status of the answer, if there was one.
    pub status: Option<u16>,
}

/// What came of one attempt.
#[derive(Drop)]
pub enum Attempted {
    /// Memory ran out before the talk.
    Memory,
    /// One talk was made.
    Made(Judged),
}

/// Writes the head of a request, signed at the wire's moment.
fn sign<W: Wire>(
    alloc: Global,
    wire: &mut W,
    client: &mut Client,
    ask: &Ask,
    payload: &Payload<'_>,
) -> Result<(), OutOfMemory>
    ensures signed { OnOk result (Gains (W.seen wire.old) (W.seen wire.new)
        (IsSigned client.old.endpoint client.old.signer ask.now payload.now client.new.heads)) }
    ensures silent { OnErr result (Gains (W.seen wire.old) (W.seen wire.new) IsSilent) }
    ensures later { W.faults wire.old ≤ W.faults wire.new }
    ensures endpoint { client.new.endpoint ≡ client.old.endpoint }
    ensures keys { client.new.signer ≡ client.old.signer }
{
    let moment = wire.moment();
    client.signer.write_head(
        alloc,
        &mut client.heads,
        ask,
        &client.endpoint,
        moment,
        payload.hash(),
        payload.as_slice().len() as u64,
    )
}

/// Whether a request is a HEAD, whose answer has no body.
fn is_head(ask: &Ask) -> bool
    ensures { result ≡ is_head ask.now }
{
    matches!(ask, Ask::Head { .. })
}

/// The status of an answer, if one came.
fn status_of(talked: &Talked) -> Option<u16>
    ensures { result ≡ status_of talked.now }
{
    match talked {
        Talked::Answered(answered) => Some(answered.status),
        Talked::Broken(_) => None,
    }
}

/// Judges what came back for a request.
fn judge(alloc: Global, ask: &Ask, talked: Talked) -> Judged
    ensures judged { IsJudged ask.now talked result.class }
    ensures told { result.status ≡ status_of talked }
    ensures dated { HasDates result.class }
    ensures refused { HasStatusIfRefused result }
{
    let status = status_of(&talked);
    let class = classify(alloc, ask, talked);
    Judged { class, status }
}

/// Sends the request whose head was written last, and judges the answer.
fn send<W: Wire>(
    alloc: Global,
    wire: &mut W,
    client: &mut Client,
    ask: &Ask,
    payload: &Payload<'_>,
    limit: Option<u64>,
    into: &mut Bytes,
    keep: bool,
) -> Judged
    requires limit { IfSome limit (λ most. IsGet ask.now × (most ≤ into.old.room)) }
    ensures answered { IsAnsweredBy (signed_request client.old.endpoint client.old.signer ask.now payload.now limit)
        keep client.old.heads (W.seen wire.old) (W.seen wire.new) (W.alive wire.new) (W.faults wire.old) (W.faults wire.new)
        into.old into.new result }
    ensures dated { HasDates result.class }
    ensures refused { HasStatusIfRefused result }
    ensures failed { result.class ≡ Class.Uncertain Why.WireFailed → Rose (W.faults wire.old) (W.faults wire.new) }
    ensures later { W.faults wire.old ≤ W.faults wire.new }
    ensures endpoint { client.new.endpoint ≡ client.old.endpoint }
    ensures keys { client.new.signer ≡ client.old.signer }
    ensures untouched { limit ≡ None → into.new ≡ into.old }
    ensures room { into.new.room ≡ into.old.room }
{
    let talked = exchange(
        alloc,
        wire,
        &mut client.room,
        &client.endpoint,
        client.heads.as_str().as_bytes(),
        payload.as_slice(),
        is_head(ask),
        keep,
        limit,
        into,
    );
    judge(alloc, ask, talked)
}

/// Makes one attempt of a request: signs it at the wire's moment, sends it in one talk, and judges the answer.
///
/// `payload` is what the request sends behind its head. Under `Some(limit)`, for a Get alone, the body of a 2xx answer
/// goes to `into`, which is cleared first, and has at most `limit` bytes. Under `None` `into` stays as it is, and such
/// a body has at most 8,388,608 bytes. The connection is kept for the next request only where `keep` is true and the
/// answer allows it. What was not a success leaves any bytes in `into`. What is listed has times before the year 10000.
///
/// # Errors
///
/// `Memory` where memory ran out before the talk. Else the class is that of the talk, or `Uncertain(Memory)` where
/// memory ran out in it or behind it; `Uncertain(WireFailed)` comes only where a call of the wire failed. A refusal has a
/// status.
pub fn attempt<W: Wire>(
    alloc: Global,
    wire: &mut W,
    client: &mut Client,
    ask: &Ask,
    payload: &Payload<'_>,
    limit: Option<u64>,
    into: &mut Bytes,
    keep: bool,
) -> Attempted
    requires limit { IfSome limit (λ most. IsGet ask.now × (most ≤ into.old.room)) }
    ensures gained { Gains (W.seen wire.old) (W.seen wire.new)
        (Makes (signed_request client.old.endpoint client.old.signer ask.now payload.now limit)
        result into.new.bytes) }
    ensures classed { IfMade result (λ judged. IsOfSomeTalk ask.now limit judged.class into.new.bytes) }
    ensures dated { IfMade result (λ judged. HasDates judged.class) }
    ensures refused { IfMade result HasStatusIfRefused }
    ensures kept { IfMade result (λ judged. keep ≡ false → W.alive wire.new ≢ Some true) }
    ensures failed { IfMade result (λ judged. judged.class ≡ Class.Uncertain Why.WireFailed
        → Rose (W.faults wire.old) (W.faults wire.new)) }
    ensures later { W.faults wire.old ≤ W.faults wire.new }
    ensures endpoint { client.new.endpoint ≡ client.old.endpoint }
    ensures keys { client.new.signer ≡ client.old.signer }
    ensures untouched { limit ≡ None → into.new ≡ into.old }
    ensures room { into.new.room ≡ into.old.room }
{
    match sign(alloc, wire, client, ask, payload) {
        Ok(()) => Attempted::Made(send(alloc, wire, client, ask, payload, limit, into, keep)),
        Err(_) => Attempted::Memory,
    }
}
