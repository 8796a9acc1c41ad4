//! Uploads of one file over a wire.

ghost use Rattle.std.specs.Prelude.{◌≡◌, []};

use crate::lanes::puts::HELLO;
use crate::uploads::{Means, carry, make_means};
use s3_model::{OutOfMemory, Outcome};
use s3_outside::Wire;
use std::alloc::Global;
use std::mem;

fn name_of(outcome: &Outcome) -> &'static str {
    match outcome {
        Outcome::Done => "done",
        Outcome::Failed(_) => "failed",
        Outcome::Unknown(_) => "unknown",
        _ => "other",
    }
}

/// The name of an outcome, which is let go.
fn end_of(outcome: Outcome) -> &'static str {
    let name = name_of(&outcome);
    mem::drop(outcome);
    name
}

/// Uploads a file by these means, and says what became of it.
fn end_by<W: Wire>(alloc: Global, wire: &mut W, means: &mut Means, key: &str) -> &'static str
    requires { means.old.journal.items ≡ [] }
{
    match carry(alloc, wire, means, "b", key, HELLO) {
        Ok(outcome) => end_of(outcome),
        Err(OutOfMemory) => "no memory",
    }
}

/// Uploads a file to the object of that key, and says what became of it.
pub(crate) fn end_of_upload<W: Wire>(alloc: Global, wire: &mut W, key: &str) -> &'static str {
    match make_means(alloc, HELLO) {
        Ok(mut means) => {
            let end = end_by(alloc, wire, &mut means, key);
            mem::drop(means);
            end
        }
        Err(OutOfMemory) => "no memory",
    }
}
