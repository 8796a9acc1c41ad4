//! Parts that pieces hold.

ghost use Rattle.std.specs.Prelude.{◌≡◌, None, replicate};

use crate::lines::push_value;
use held_parts::HeldParts;
use std::alloc::{AllocError, Global};

/// Whether a part is free, whether the part of the piece 1 of the task 3 is here, and whether it has the bytes.
type State = (bool, bool, bool);

fn has_hello(held: &HeldParts) -> bool {
    match held.part(3, 1) {
        Some(part) => part.bytes.as_slice() == b"hello".as_slice(),
        None => false,
    }
}

fn state(held: &HeldParts) -> State {
    (held.has_free(), held.part(3, 1).is_some(), has_hello(held))
}

/// Two pieces hold the two parts. That of the first is here, is taken and comes back, and its task stops. Between, nothing
/// is left for a third.
fn see_pieces(held: &mut HeldParts) -> (State, bool, State, State)
    requires count { held.old.pool.count ≡ 2 }
    requires room { held.old.pool.room ≡ 8 }
    requires none { held.old.slots ≡ replicate 2 None }
{
    let Some(part) = held.lend(3, 1) else {
        unreachable!()
    };
    held.put(3, 1, part);
    held.add(3, 1, b"hello");
    let Some(other) = held.lend(4, 0) else {
        unreachable!()
    };
    let both = state(held);
    let is_last = held.lend(4, 1).is_none();
    let taken = held.take(3, 1);
    let away = state(held);
    held.put(3, 1, taken);
    held.stop(3);
    let stopped = state(held);
    held.give_back(4, 0, other);
    (both, is_last, away, stopped)
}

/// Adds what is seen of two parts.
pub(crate) fn push_held(alloc: Global, out: &mut String) -> Result<(), AllocError> {
    match HeldParts::make(alloc, 2, 8) {
        Ok(mut held) => {
            let (both, is_last, away, stopped) = see_pieces(&mut held);
            write!(out, "{both:?} {is_last} {away:?} {stopped:?}")
        }
        Err(fault) => push_value(out, fault),
    }
}
