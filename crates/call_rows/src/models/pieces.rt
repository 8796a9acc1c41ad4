//! Pieces at the sizes in use.

ghost use Rattle.s3_model.specs.Validity.{IsValidLimits};

use crate::lines::{number, small_number, word_and_rest};
use chunk_plan::{adjust, part_count, part_range, pieces_cover_the_object};
use s3_model::Limits;
use std::alloc::AllocError;

const S3: Limits = Limits {
    min_part: 5242880,
    max_part: 5368709120,
    max_parts: 10000,
    max_object: 1099511627776,
};

const SMALL: Limits = Limits {
    min_part: 4,
    max_part: 64,
    max_parts: 4,
    max_object: 256,
};

fn limits_named(name: &str) -> Limits
    ensures { IsValidLimits result }
{
    match name {
        "S3" => S3,
        _ => SMALL,
    }
}

/// Adds a part, where there is one of that number.
fn push_part(out: &mut String, size: u64, length: u64, number: u32) -> Result<(), AllocError> {
    if length == 0 || size > 1_099_511_627_776 {
        return out.push_str("no length");
    }
    if size.div_ceil(length) > 10_000 {
        return out.push_str("too many parts");
    }
    if number == 0 || number > part_count(size, length) {
        return out.push_str("no part");
    }
    let (place, length) = part_range(size, length, number);
    write!(out, "{place} {length}")
}

pub(crate) fn push_range(out: &mut String, given: &str) -> Result<(), AllocError> {
    let (size, given) = word_and_rest(given);
    let (length, part) = word_and_rest(given);
    push_part(out, number(size), number(length), small_number(part))
}

/// Adds how long the parts of an object are, how many there are, and the last, where the limits allow chunk and size.
fn push_adjusted(out: &mut String, limits: &Limits, chunk: u64, size: u64) -> Result<(), AllocError>
    requires { IsValidLimits limits.now }
{
    if chunk == 0 || size > limits.max_object {
        return out.push_str("not within the limits");
    }
    let length = adjust(chunk, size, limits);
    let count = part_count(size, length);
    write!(out, "{length} {count} ")?;
    push_part(out, size, length, count)
}

pub(crate) fn push_pieces(out: &mut String, given: &str) -> Result<(), AllocError> {
    pieces_cover_the_object();
    let (name, given) = word_and_rest(given);
    let (chunk, size) = word_and_rest(given);
    push_adjusted(out, &limits_named(name), number(chunk), number(size))
}
