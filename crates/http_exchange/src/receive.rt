//! Taking the head of an answer.

ghost use Rattle.std.specs.Prelude.{◌≡◌, ◌<◌, ◌==◌, not, [], length, nat_lt, take};
ghost use Rattle.std.specs.List.{list_all};
ghost use Rattle.answer_grammar.specs.Parts.{IsHeadAt, ReadsStep};
ghost use Rattle.answer_grammar.specs.declared.head.Head.{Head};
ghost use Rattle.http_exchange.specs.Steps.{HasWireCause, Hears, IsWhyNoHead, TakesHead, TakesLines};

use crate::incoming::Incoming;
use crate::room::AnswerRoom;
use answer_grammar::{HEAD_LIMIT, Head, HeadRoom, read_head};
use s3_model::Why;
use s3_outside::Wire;
use std::alloc::Global;
use std::mem;

/// Takes the head of an answer. It is tried when a line has ended, at the end of the connection and at 65,536 bytes.
pub(crate) fn take_head<W: Wire>(
    alloc: Global,
    wire: &mut W,
    room: &mut AnswerRoom,
    head_only: bool,
) -> Result<Head, Why>
    requires { room.old.incoming ≡ [] }
    ensures heard { Hears (W.seen wire.old) (W.seen wire.new) (TakesHead head_only room.new.incoming result) }
    ensures cause { HasWireCause (W.faults wire.old) (W.faults wire.new) result }
{
    loop {
        if let Some(head) = try_head(alloc, &mut room.heads, room.incoming.bytes(), head_only)? {
            room.incoming.skip(head.len);
            return Ok(head);
        }
        if is_full(&room.incoming) {
            return Err(Why::HeadTooLong);
        }
        if take_lines(wire, &mut room.incoming)? {
            return Err(why_no_head(alloc, &mut room.heads, room.incoming.bytes(), head_only));
        }
    }
}

/// Whether as many bytes came as a head may have.
fn is_full(incoming: &Incoming) -> bool
    ensures { result ≡ nat_lt 65_535 (length incoming.now) }
{
    incoming.bytes().len() >= HEAD_LIMIT
}

/// The head at the front of the first bytes that it may stand in.
fn try_head(
    alloc: Global,
    heads: &mut HeadRoom,
    got: &[u8],
    head_only: bool,
) -> Result<Option<Head>, Why>
    ensures { ReadsStep head_only (take 65_536 got.now) result }
{
    read_head(alloc, heads, &got[..got.len().min(HEAD_LIMIT)], head_only)
}

/// Why no head is at the front of the bytes that came before the connection closed.
fn why_no_head(alloc: Global, heads: &mut HeadRoom, got: &[u8], head_only: bool) -> Why
    requires { (found : Head) → IsHeadAt head_only (take 65_536 got.now) found → ⊥ }
    ensures { IsWhyNoHead head_only (take 65_536 got.now) result }
{
    match try_head(alloc, heads, got, head_only) {
        Ok(found) => {
            mem::drop(found);
            Why::EndedEarly
        }
        Err(why) => why,
    }
}

/// Takes pieces until one has the end of a line, or there are 65,536 bytes, and answers whether the connection closed.
fn take_lines<W: Wire>(wire: &mut W, incoming: &mut Incoming) -> Result<bool, Why>
    requires { length incoming.old < 65_536 }
    ensures heard { Hears (W.seen wire.old) (W.seen wire.new) (TakesLines incoming.old incoming.new result) }
    ensures cause { HasWireCause (W.faults wire.old) (W.faults wire.new) result }
{
    loop {
        let before = incoming.bytes().len();
        if incoming.refill(wire)? == 0 {
            return Ok(true);
        }
        let bytes = incoming.bytes();
        if bytes.len() >= HEAD_LIMIT || !lacks_line_end(&bytes[before..]) {
            return Ok(false);
        }
    }
}

/// Whether none of the bytes ends a line.
fn lacks_line_end(bytes: &[u8]) -> bool
    ensures { result ≡ list_all (λ b. not (b == 10)) bytes.now }
{
    bytes.iter().all(|b| *b != b'\n')
}
