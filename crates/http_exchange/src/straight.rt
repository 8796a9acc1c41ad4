//! Taking bytes from the wire straight into the place of a body.

ghost use Rattle.std.specs.Prelude.{◌≡◌, ◌≤◌, ◌<◌, ◌+◌, [], length};
ghost use Rattle.http_exchange.specs.Steps.{HasWireCause, Hears, TakesBytes, TakesMore};

use crate::incoming::{Incoming, PIECE};
use s3_model::{Bytes, Why};
use s3_outside::Wire;

/// The greatest number of bytes that are taken straight into a body in one call.
const STRAIGHT: usize = 262_144;

/// Takes bytes from the wire to the end of a body, at most so many, and answers how many: 0 at the end of the
/// connection.
pub(crate) fn fill_from<W: Wire>(wire: &mut W, body: &mut Bytes, most: usize) -> Result<usize, Why>
    requires some { 0 < most }
    requires room { length body.old.bytes + most ≤ body.old.room }
    ensures heard { Hears (W.seen wire.old) (W.seen wire.new)
        (TakesBytes most body.old.bytes body.new.bytes result) }
    ensures cause { HasWireCause (W.faults wire.old) (W.faults wire.new) result }
    ensures room_kept { body.new.room ≡ body.old.room }
{
    let have = body.as_slice().len();
    body.grow(most);
    match wire.take(&mut body.as_mut_slice()[have..]) {
        Ok(count) => {
            body.truncate(have + count);
            Ok(count)
        }
        Err(_) => Err(Why::WireFailed),
    }
}

/// Takes bytes that a body of which so many are missing goes on with, and answers how many came: 0 at the end of the
/// connection. At least a piece is taken straight into the body, and none behind it. Shorter rests come with what is
/// behind them, which stays unread.
pub(crate) fn take_more<W: Wire>(
    wire: &mut W,
    incoming: &mut Incoming,
    body: &mut Bytes,
    missing: usize,
) -> Result<usize, Why>
    requires empty { incoming.old ≡ [] }
    requires room { length body.old.bytes + missing ≤ body.old.room }
    ensures heard { Hears (W.seen wire.old) (W.seen wire.new)
        (TakesMore missing incoming.new body.old.bytes body.new.bytes result) }
    ensures cause { HasWireCause (W.faults wire.old) (W.faults wire.new) result }
    ensures room_kept { body.new.room ≡ body.old.room }
{
    if missing >= PIECE {
        return fill_from(wire, body, missing.min(STRAIGHT));
    }
    let count = incoming.refill(wire)?;
    incoming.move_to(body, missing);
    Ok(count)
}
