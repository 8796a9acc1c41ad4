//! How a transfer is cut into pieces.

ghost use Rattle.std.specs.Prelude.{◌≡◌, ◌+◌, ◌^◌, ◌<◌, ◌≤◌};
ghost use Rattle.s3_model.specs.Parts.{IsFirstFitting, piece_count, piece_range};
ghost use Rattle.s3_model.specs.Validity.{IsValidLimits};
ghost use Rattle.chunk_plan.specs.Adjusted.{IsPartLength};

use s3_model::Limits;

/// The first of `chunk`, 2 `chunk`, 4 `chunk` and so on that cuts `size` into at most `most` pieces.
fn first_fitting(chunk: u64, size: u64, most: u32) -> u64
    requires positive { 1 ≤ chunk }
    requires below { size ≤ 2 ^ 40 }
    requires some { 1 ≤ most }
    ensures { IsFirstFitting chunk size most result }
{
    let mut found = chunk;
    while size.div_ceil(found) > u64::from(most) {
        found *= 2;
    }
    found
}

/// The length in bytes of the parts of an object of `size` bytes: `chunk` is doubled while there would be more than
/// `max_parts` parts, and then lowered to `max_part` or raised to `min_part`.
///
/// At most `max_parts` parts of that length make up the object, also where it was lowered, since an object has at most
/// `max_part` times `max_parts` bytes.
pub fn adjust(chunk: u64, size: u64, limits: &Limits) -> u64
    requires valid { IsValidLimits limits.now }
    requires positive { 1 ≤ chunk }
    requires within { size ≤ limits.now.max_object }
    ensures length { IsPartLength limits.now chunk size result }
    ensures fits { piece_count size result ≤ limits.now.max_parts }
    ensures least { limits.now.min_part ≤ result }
    ensures most { result ≤ limits.now.max_part }
{
    first_fitting(chunk, size, limits.max_parts).clamp(limits.min_part, limits.max_part)
}

/// How many parts of `chunk` bytes make up `size` bytes; the last may be shorter.
pub fn part_count(size: u64, chunk: u64) -> u32
    requires positive { 1 ≤ chunk }
    requires countable { piece_count size chunk < 2 ^ 32 }
    ensures { result ≡ piece_count size chunk }
{
    size.div_ceil(chunk) as u32
}

/// Where the part of that number begins, and its length, both in bytes. Parts are numbered from 1.
pub fn part_range(size: u64, chunk: u64, number: u32) -> (u64, u64)
    requires positive { 1 ≤ chunk }
    requires first { 1 ≤ number }
    requires last { number ≤ piece_count size chunk }
    ensures range { result ≡ piece_range size chunk number }
    ensures inside { result.0 + result.1 ≤ size }
    ensures some { 1 ≤ result.1 }
{
    let place = u64::from(number - 1) * chunk;
    (place, chunk.min(size - place))
}
