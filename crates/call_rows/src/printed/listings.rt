//! Rows of listings.

ghost use Rattle.std.specs.Prelude.{◌<◌};

use crate::lines::{number, text_of, word_and_rest};
use result_lines::{bucket_row, ls_row};
use s3_model::{Entry, OutOfMemory, Text};
use std::alloc::Global;

/// An entry of that name. Its moment, in microseconds, is before the year 10000.
fn entry(alloc: Global, name: &str, size: &str, micros: &str) -> Entry
    ensures { result.micros < 253402300800000000 }
{
    Entry {
        key: text_of(alloc, name),
        size: number(size),
        etag: text_of(alloc, "e"),
        micros: number(micros).min(253_402_300_799_999_999),
    }
}

/// The row of an object, of a size, a moment and a name.
pub(crate) fn object(alloc: Global, given: &str) -> Result<Text, OutOfMemory> {
    let (size, given) = word_and_rest(given);
    let (micros, name) = word_and_rest(given);
    ls_row(alloc, &entry(alloc, name, size, micros), name)
}

/// The row of a bucket, of a moment and a name.
pub(crate) fn bucket(alloc: Global, given: &str) -> Result<Text, OutOfMemory> {
    let (micros, name) = word_and_rest(given);
    bucket_row(alloc, &entry(alloc, name, "0", micros))
}
