//! Taking a chunked body (RFC 9112, section 7.1).

ghost use Rattle.std.specs.Prelude.{◌≡◌, ◌≤◌, ◌+◌, [], length};
ghost use Rattle.answer_grammar.specs.declared.framing.Framing.TheVariants as Framings;
ghost use Rattle.http_exchange.specs.Steps.{HasWireCause, Hears, TakesBody, TakesChunk};

use crate::body::take_content;
use crate::form::{LineEnd, SizeLine, Trailers, take_form};
use crate::room::AnswerRoom;
use s3_model::{Bytes, Why};
use s3_outside::Wire;

/// Takes chunks up to the trailers' end.
pub(crate) fn take_chunks<W: Wire>(
    wire: &mut W,
    room: &mut AnswerRoom,
    body: &mut Bytes,
    limit: usize,
) -> Result<(), Why>
    requires empty { body.old.bytes ≡ [] }
    requires room { limit ≤ body.old.room }
    ensures heard { Hears (W.seen wire.old) (W.seen wire.new)
        (TakesBody Framings.Chunked limit room.old.incoming room.new.incoming body.new.bytes result) }
    ensures cause { HasWireCause (W.faults wire.old) (W.faults wire.new) result }
    ensures room_kept { body.new.room ≡ body.old.room }
{
    let mut left = limit as u64;
    loop {
        let size = take_form(&SizeLine, wire, room)?;
        if size == 0 {
            break;
        }
        if size > left {
            return Err(Why::BodyTooLong(limit as u64));
        }
        take_chunk(wire, room, body, size as usize)?;
        left -= size;
    }
    take_form(&Trailers, wire, room)?;
    Ok(())
}

/// Takes the content of one chunk, and the CRLF behind it.
fn take_chunk<W: Wire>(
    wire: &mut W,
    room: &mut AnswerRoom,
    body: &mut Bytes,
    size: usize,
) -> Result<(), Why>
    requires { length body.old.bytes + size ≤ body.old.room }
    ensures heard { Hears (W.seen wire.old) (W.seen wire.new)
        (TakesChunk size room.old.incoming room.new.incoming body.old.bytes body.new.bytes result) }
    ensures cause { HasWireCause (W.faults wire.old) (W.faults wire.new) result }
    ensures room_kept { body.new.room ≡ body.old.room }
{
    take_content(wire, &mut room.incoming, body, size)?;
    take_form(&LineEnd, wire, room)?;
    Ok(())
}
