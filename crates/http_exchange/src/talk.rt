//! One request and its answer.

ghost use Rattle.std.specs.Prelude.{◌≡◌, ◌≤◌, [], ◌++◌, ◌&&◌, IfSome, None, length};
ghost use Rattle.std.specs.Option.{option_map};
ghost use Rattle.s3_model.specs.Counts.{Rose};
ghost use Rattle.answer_grammar.specs.Answer.{IsOfTalk, body_limit, goes_into, is_success};
ghost use Rattle.s3_outside.specs.Wire.{is_kept};
ghost use Rattle.http_exchange.specs.Exchange.{IfBroken, Exchanges, RawRequest};
ghost use Rattle.http_exchange.specs.Steps.{
  FillsPlace,
  FillsAnswer,
  HasWireCause,
  Hears,
  Receives,
  body_room,
  ends_kept,
  talked_of,
};

use crate::body::take_body;
use crate::receive::take_head;
use crate::room::AnswerRoom;
use crate::send::ask;
use answer_grammar::{Framing, Head};
use s3_model::{Answered, Bytes, Endpoint, Talked, Why};
use s3_outside::Wire;
use std::alloc::Global;
use std::mem;

/// The greatest length of a 2xx body that the caller set no limit for, in bytes.
const DOCUMENT_LIMIT: u64 = 8_388_608;

/// The greatest length of any other body in bytes.
const ERROR_LIMIT: u64 = 65_536;

/// Sends one request and reads the answer (RFC 9112), in one talk.
///
/// `head_only` says that the request is a HEAD. Under `Some(limit)` the body of a 2xx answer goes to `into`, which is
/// cleared first, and has at most `limit` bytes; under `None` it has at most 8,388,608. Any other body has at most
/// 65,536 bytes. A head has at most 65,536 bytes and 100 header lines. Bytes are taken in pieces of at most 16,384, and
/// none once they decide. Where at least a piece of the body or of a chunk is still to come, up to 262,144 bytes of it
/// are taken straight into its place in one call. The connection is kept exactly where `keep` is true, the answer allows
/// it and no byte stands behind it. `room` serves one exchange after the other.
///
/// # Errors
///
/// `Broken` says why there is no answer: `WireFailed` where a call of the wire failed, `Memory` where memory ran out,
/// and else the one thing that is wrong with the bytes that came. After it `into` may hold any bytes.
pub fn exchange<W: Wire>(
    alloc: Global,
    wire: &mut W,
    room: &mut AnswerRoom,
    endpoint: &Endpoint,
    head: &[u8],
    body: &[u8],
    head_only: bool,
    keep: bool,
    limit: Option<u64>,
    into: &mut Bytes,
) -> Talked
    requires { IfSome limit (λ most. most ≤ into.old.room) }
    ensures talk { let request : RawRequest = record {
      endpoint = endpoint.now;
      bytes = head.now ++ body.now;
      head_only = head_only;
      limit = limit;
      keep = keep;
    } in Exchanges request (W.seen wire.old) (W.seen wire.new)
        (W.alive wire.new) (W.faults wire.old) (W.faults wire.new) into.old into.new result }
    ensures failed { result ≡ Talked.Broken Why.WireFailed → Rose (W.faults wire.old) (W.faults wire.new) }
    ensures later { W.faults wire.old ≤ W.faults wire.new }
    ensures own { IfBroken result IsOfTalk }
    ensures room { into.new.room ≡ into.old.room }
    ensures untouched { limit ≡ None → into.new ≡ into.old }
{
    match ask(wire, &mut room.incoming, endpoint, head, body) {
        Ok(()) => {
            room.incoming.clear();
            let answer = receive(alloc, wire, room, head_only, limit, into);
            let is_entire = room.incoming.bytes().is_empty();
            end(wire, keep, is_entire, answer)
        }
        Err(_) => end(wire, keep, false, Err(Why::WireFailed)),
    }
}

/// Whether the connection stays open: that is asked for, the answer allows it, and nothing stands behind the answer.
fn stays_open(asked: bool, allowed: bool, is_entire: bool) -> bool
    ensures { result ≡ (asked && (allowed && is_entire)) }
{
    asked && allowed && is_entire
}

/// Ends a talk, and keeps the connection where that is asked for, the answer allows it, and nothing stands behind it.
fn end<W: Wire>(wire: &mut W, keep: bool, is_entire: bool, answer: Result<Answered, Why>) -> Talked
    ensures talked { result ≡ talked_of answer }
    ensures log { W.seen wire.new ≡ W.seen wire.old }
    ensures alive { W.alive wire.new ≡ option_map (is_kept (ends_kept keep is_entire answer)) (W.seen wire.old) }
    ensures later { W.faults wire.old ≤ W.faults wire.new }
{
    match answer {
        Ok(answered) => {
            wire.finish(stays_open(keep, answered.keep, is_entire));
            Talked::Answered(answered)
        }
        Err(why) => {
            wire.finish(false);
            Talked::Broken(why)
        }
    }
}

/// Reads the answer to a request that was sent.
fn receive<W: Wire>(
    alloc: Global,
    wire: &mut W,
    room: &mut AnswerRoom,
    head_only: bool,
    limit: Option<u64>,
    into: &mut Bytes,
) -> Result<Answered, Why>
    requires room { IfSome limit (λ most. most ≤ into.old.room) }
    requires empty { room.old.incoming ≡ [] }
    ensures heard { Hears (W.seen wire.old) (W.seen wire.new)
        (Receives head_only limit room.new.incoming into.old into.new result) }
    ensures cause { HasWireCause (W.faults wire.old) (W.faults wire.new) result }
    ensures room_kept { into.new.room ≡ into.old.room }
    ensures untouched { limit ≡ None → into.new ≡ into.old }
{
    let head = take_head(alloc, wire, room, head_only)?;
    let most = body_limit(limit, head.answer.status);
    if goes_into(limit, head.answer.status) {
        fill_place(wire, room, head, most, into)
    } else {
        fill_answer(alloc, wire, room, head, most)
    }
}

/// Takes a body into the caller's place.
fn fill_place<W: Wire>(
    wire: &mut W,
    room: &mut AnswerRoom,
    head: Head,
    most: u64,
    into: &mut Bytes,
) -> Result<Answered, Why>
    requires { most ≤ into.old.room }
    ensures heard { Hears (W.seen wire.old) (W.seen wire.new)
        (FillsPlace head most room.old.incoming room.new.incoming into.new.bytes result) }
    ensures cause { HasWireCause (W.faults wire.old) (W.faults wire.new) result }
    ensures room_kept { into.new.room ≡ into.old.room }
{
    into.clear();
    match take_body(wire, room, head.framing, most, into) {
        Ok(()) => Ok(with_count(head, into.as_slice().len() as u64)),
        Err(why) => {
            mem::drop(head);
            Err(why)
        }
    }
}

/// The answer of a head whose body has so many bytes.
fn with_count(head: Head, taken: u64) -> Answered
    ensures { result ≡ record head.answer { taken = taken } }
{
    let mut answered = head.answer;
    answered.taken = taken;
    answered
}

/// Takes a body into the answer.
fn fill_answer<W: Wire>(
    alloc: Global,
    wire: &mut W,
    room: &mut AnswerRoom,
    head: Head,
    most: u64,
) -> Result<Answered, Why>
    ensures heard { Hears (W.seen wire.old) (W.seen wire.new)
        (FillsAnswer head most room.old.incoming room.new.incoming result) }
    ensures cause { HasWireCause (W.faults wire.old) (W.faults wire.new) result }
{
    let Ok(mut body) = Bytes::make(alloc, body_room(head.framing, most)) else {
        mem::drop(head);
        return Err(Why::Memory);
    };
    match take_body(wire, room, head.framing, most, &mut body) {
        Ok(()) => Ok(with_body(head, body)),
        Err(why) => {
            mem::drop(head);
            Err(why)
        }
    }
}

/// The answer of a head, which holds its body.
fn with_body(head: Head, body: Bytes) -> Answered
    ensures { result ≡ record head.answer { taken = length body.bytes; body = body } }
{
    let mut answered = head.answer;
    answered.taken = body.as_slice().len() as u64;
    answered.body = body;
    answered
}

/// How many bytes a body within the limit has at most.
fn body_room(framing: Framing, limit: u64) -> u64
    ensures { result ≡ body_room framing limit }
{
    match framing {
        Framing::NoBody => 0,
        Framing::Length(n) => n.min(limit),
        Framing::Chunked | Framing::ToClose => limit,
    }
}

/// Whether the body goes to the place that the caller gave.
fn goes_into(limit: Option<u64>, status: u16) -> bool
    ensures { result ≡ goes_into limit status }
{
    limit.is_some() && is_success(status)
}

/// Whether a status is 2xx (RFC 9110, section 15.3).
fn is_success(status: u16) -> bool
    ensures { result ≡ is_success status }
{
    (200..300).contains(&status)
}

/// How long the body of an answer with this status may be.
fn body_limit(limit: Option<u64>, status: u16) -> u64
    ensures { result ≡ body_limit limit status }
{
    if is_success(status) {
        limit.unwrap_or(DOCUMENT_LIMIT)
    } else {
        ERROR_LIMIT
    }
}
