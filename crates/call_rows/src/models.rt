//! Texts, lists, pieces and part buffers as callers use them, with what comes of each case.
//!
//! `content` is a path, `find` a name of a table, `upload` a length of an id. `pieces` are limits, the chunk and the size of
//! an object: the length of a part, how many parts there are, where the last begins, and its length. `range` is a size, the
//! length of a part and its number. The other cases are single ones.

mod held;
mod names;
mod owned;
mod pieces;
mod pools;

use crate::lines::{push_line, push_value, word_and_rest};
use crate::models::names::NAMES;
use s3_model::content_of;
use std::alloc::{AllocError, Global};

/// Adds what comes of a single case.
fn push_single(alloc: Global, out: &mut String, name: &str) -> Result<(), AllocError> {
    match name {
        "texts" => owned::push_texts(alloc, out),
        "lists" => owned::push_list(alloc, out),
        "bytes" => owned::push_bytes(alloc, out),
        "tries" => owned::push_tries(out),
        "pool" => pools::push_lent(alloc, out),
        "large" => pools::push_large(alloc, out),
        _ => held::push_held(alloc, out),
    }
}

/// Adds a case with what comes of it.
pub(crate) fn push_row(alloc: Global, out: &mut String, line: &str) -> Result<(), AllocError> {
    push_line(out, line)?;
    let (name, given) = word_and_rest(line);
    match name {
        "content" => push_value(out, content_of(given)),
        "find" => push_value(out, NAMES.find(given)),
        "upload" => names::push_upload(alloc, out, given),
        "pieces" => pieces::push_pieces(out, given),
        "range" => pieces::push_range(out, given),
        _ => push_single(alloc, out, name),
    }
}
