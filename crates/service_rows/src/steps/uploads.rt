//! Uploads of one piece, with their attempts.

ghost use Rattle.std.specs.Prelude.{◌≡◌, []};

use crate::steps::shown::{outcome_text, push_marks};
use crate::steps::words::{Spot, Words};
use crate::uploads::{Means, carry, make_means};
use s3_model::{Event, Journal, OutOfMemory, Outcome};
use s3_outside::Wire;
use std::alloc::{AllocError, Global};
use std::mem;

/// The marks of the attempts that a journal has.
fn marks(alloc: Global, journal: &Journal) -> Result<String, AllocError> {
    let mut out = String::new(alloc);
    for event in journal.as_slice() {
        if let Event::Came { tries, .. } = event {
            push_marks(&mut out, tries.as_slice())?;
        }
    }
    Ok(out)
}

fn shown(alloc: Global, journal: &Journal, outcome: &Outcome) -> Result<String, AllocError> {
    let mut text = marks(alloc, journal)?;
    let outcome = outcome_text(alloc, outcome)?;
    text.push_str(outcome.as_str())?;
    Ok(text)
}

/// Uploads bytes to an object by these means, and says the marks of the attempts and the outcome.
fn text_by<W: Wire>(
    alloc: Global,
    wire: &mut W,
    means: &mut Means,
    spot: &Spot,
    bytes: &[u8],
) -> Result<String, OutOfMemory>
    requires { means.old.journal.items ≡ [] }
{
    let (bucket, key) = (spot.bucket.as_str(), spot.key.as_str());
    match carry(alloc, wire, means, bucket, key, bytes) {
        Ok(outcome) => {
            let text = shown(alloc, &means.journal, &outcome);
            mem::drop(outcome);
            Ok(text?)
        }
        Err(OutOfMemory) => Err(OutOfMemory),
    }
}

/// Uploads bytes to an object, and says the marks of the attempts and the outcome.
fn uploaded<W: Wire>(
    alloc: Global,
    wire: &mut W,
    spot: &Spot,
    bytes: &[u8],
) -> Result<String, OutOfMemory> {
    match make_means(alloc, bytes) {
        Ok(mut means) => {
            let text = text_by(alloc, wire, &mut means, spot, bytes);
            mem::drop(means);
            text
        }
        Err(OutOfMemory) => Err(OutOfMemory),
    }
}

/// Does an upload step.
pub(crate) fn carry_upload<W: Wire>(
    alloc: Global,
    wire: &mut W,
    words: &mut Words<'_>,
) -> Result<String, OutOfMemory> {
    let text = words.text(alloc);
    let spot = words.spot(alloc);
    uploaded(alloc, wire, &spot, text.as_str().as_bytes())
}
