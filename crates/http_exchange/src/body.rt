//! Taking the body of an answer.

ghost use Rattle.std.specs.Prelude.{◌≡◌, ◌≤◌, ◌+◌, [], length, min};
ghost use Rattle.answer_grammar.specs.declared.framing.Framing.TheVariants as Framings;
ghost use Rattle.http_exchange.specs.Steps.{HasWireCause, Hears, TakesBody, TakesContent, body_room};

use crate::chunked::take_chunks;
use crate::incoming::Incoming;
use crate::room::AnswerRoom;
use crate::straight::take_more;
use answer_grammar::Framing;
use s3_model::{Bytes, Why};
use s3_outside::Wire;

/// Takes a body of at most so many bytes.
pub(crate) fn take_body<W: Wire>(
    wire: &mut W,
    room: &mut AnswerRoom,
    framing: Framing,
    limit: u64,
    body: &mut Bytes,
) -> Result<(), Why>
    requires empty { body.old.bytes ≡ [] }
    requires room { body_room framing limit ≤ body.old.room }
    ensures heard { Hears (W.seen wire.old) (W.seen wire.new)
        (TakesBody framing limit room.old.incoming room.new.incoming body.new.bytes result) }
    ensures cause { HasWireCause (W.faults wire.old) (W.faults wire.new) result }
    ensures room_kept { body.new.room ≡ body.old.room }
{
    let most = limit as usize;
    match framing {
        Framing::NoBody => Ok(()),
        Framing::Length(n) => take_sized(wire, &mut room.incoming, body, n, limit),
        Framing::Chunked => take_chunks(wire, room, body, most),
        Framing::ToClose => take_to_close(wire, &mut room.incoming, body, most),
    }
}

/// Takes a body of a stated length.
fn take_sized<W: Wire>(
    wire: &mut W,
    incoming: &mut Incoming,
    body: &mut Bytes,
    n: u64,
    limit: u64,
) -> Result<(), Why>
    requires empty { body.old.bytes ≡ [] }
    requires room { min n limit ≤ body.old.room }
    ensures heard { Hears (W.seen wire.old) (W.seen wire.new)
        (TakesBody (Framings.Length n) limit incoming.old incoming.new body.new.bytes result) }
    ensures cause { HasWireCause (W.faults wire.old) (W.faults wire.new) result }
    ensures room_kept { body.new.room ≡ body.old.room }
{
    if n > limit {
        return Err(Why::BodyTooLong(limit));
    }
    take_content(wire, incoming, body, n as usize)
}

/// Takes so many bytes to the end of the body.
pub(crate) fn take_content<W: Wire>(
    wire: &mut W,
    incoming: &mut Incoming,
    body: &mut Bytes,
    size: usize,
) -> Result<(), Why>
    requires { length body.old.bytes + size ≤ body.old.room }
    ensures heard { Hears (W.seen wire.old) (W.seen wire.new)
        (TakesContent size incoming.old incoming.new body.old.bytes body.new.bytes result) }
    ensures cause { HasWireCause (W.faults wire.old) (W.faults wire.new) result }
    ensures room_kept { body.new.room ≡ body.old.room }
{
    let mut left = size - incoming.move_to(body, size);
    while left > 0 {
        let count = take_more(wire, incoming, body, left)?;
        if count == 0 {
            return Err(Why::EndedEarly);
        }
        left -= count.min(left);
    }
    Ok(())
}

/// Takes all bytes up to the end of the connection.
fn take_to_close<W: Wire>(
    wire: &mut W,
    incoming: &mut Incoming,
    body: &mut Bytes,
    limit: usize,
) -> Result<(), Why>
    requires empty { body.old.bytes ≡ [] }
    requires room { limit ≤ body.old.room }
    ensures heard { Hears (W.seen wire.old) (W.seen wire.new)
        (TakesBody Framings.ToClose limit incoming.old incoming.new body.new.bytes result) }
    ensures cause { HasWireCause (W.faults wire.old) (W.faults wire.new) result }
    ensures room_kept { body.new.room ≡ body.old.room }
{
    incoming.move_to(body, limit);
    while incoming.bytes().is_empty() {
        let missing = limit - body.as_slice().len();
        if take_more(wire, incoming, body, missing)? == 0 {
            return Ok(());
        }
    }
    Err(Why::BodyTooLong(limit as u64))
}
