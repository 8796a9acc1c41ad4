//! What is read whole within a chunked body, whatever the pieces that it comes in.

ghost use Rattle.std.specs.Prelude.{◌≡◌, ◌<◌, ℕ, List, length};
ghost use Rattle.answer_grammar.specs.Chunks.{
  HasSize,
  CannotBeSize,
  BeginsSize,
  HasTrailers,
  CannotBeTrailers,
  BeginsTrailers,
};
ghost use Rattle.http_exchange.specs.Forms.{ReadsForm, HasLineEnd, CannotBeLineEnd, BeginsLineEnd};
ghost use Rattle.http_exchange.specs.Steps.{HasWireCause, Hears, TakesForm};

use crate::room::AnswerRoom;
use answer_grammar::{HeadRoom, read_size, read_trailers};
use s3_model::Why;
use s3_outside::Wire;

/// Something that stands at the front of bytes, and says a number.
pub(crate) trait Form {
    /// It stands at the front with this number, and these bytes stand behind it.
    ghost has: { List ℕ → ℕ → List ℕ → Type 0 };

    /// It can't stand at the front, whatever follows.
    ghost cannot_be: { List ℕ → Type 0 };

    /// It is not whole yet.
    ghost begins: { List ℕ → Type 0 };

    /// Its length and its number, or None where it is not whole yet. `heads` is a place for header lines.
    fn read(&self, heads: &mut HeadRoom, bytes: &[u8]) -> Result<Option<(usize, u64)>, Why>
        ensures { ReadsForm has cannot_be begins bytes.now result };
}

/// The line with the size of a chunk.
#[derive(Drop)]
pub(crate) struct SizeLine;

impl Form for SizeLine {
    ghost has = { HasSize };

    ghost cannot_be = { CannotBeSize };

    ghost begins = { BeginsSize };

    fn read(&self, _heads: &mut HeadRoom, bytes: &[u8]) -> Result<Option<(usize, u64)>, Why> {
        read_size(bytes)
    }
}

/// The CRLF behind a chunk's content.
#[derive(Drop)]
pub(crate) struct LineEnd;

impl Form for LineEnd {
    ghost has = { HasLineEnd };

    ghost cannot_be = { CannotBeLineEnd };

    ghost begins = { BeginsLineEnd };

    fn read(&self, _heads: &mut HeadRoom, bytes: &[u8]) -> Result<Option<(usize, u64)>, Why> {
        match bytes {
            [b'\r', b'\n', ..] => Ok(Some((2, 0))),
            [] => Ok(None),
            [only] if *only == b'\r' => Ok(None),
            _ => Err(Why::BadChunk),
        }
    }
}

/// The trailers of a chunked body, with the empty line that ends them.
#[derive(Drop)]
pub(crate) struct Trailers;

impl Form for Trailers {
    ghost has = { λ after value behind. HasTrailers after behind };

    ghost cannot_be = { CannotBeTrailers };

    ghost begins = { BeginsTrailers };

    fn read(&self, heads: &mut HeadRoom, bytes: &[u8]) -> Result<Option<(usize, u64)>, Why> {
        match read_trailers(heads, bytes)? {
            Some(len) => Ok(Some((len, 0))),
            None => Ok(None),
        }
    }
}

/// Reads a form, and takes pieces for it as long as it is not whole.
pub(crate) fn take_form<F: Form, W: Wire>(
    form: &F,
    wire: &mut W,
    room: &mut AnswerRoom,
) -> Result<u64, Why>
    ensures heard { Hears (W.seen wire.old) (W.seen wire.new)
        (TakesForm F.has F.cannot_be F.begins room.old.incoming room.new.incoming result) }
    ensures cause { HasWireCause (W.faults wire.old) (W.faults wire.new) result }
{
    loop {
        if let Some((len, value)) = form.read(&mut room.heads, room.incoming.bytes())? {
            room.incoming.skip(len);
            return Ok(value);
        }
        if room.incoming.refill(wire)? == 0 {
            return Err(Why::EndedEarly);
        }
    }
}
