//! Requests, signatures and presigned URLs, each as it comes out.
//!
//! A line is a number, the name of a call, and what it is given; the answer is printed behind the number. In what is given
//! `|12×ab|` stands for twelve times `ab`. Values have names, as `bucket=b; key=k`. `head` and `second` print a head, by a
//! key of its own and as the second head of a signer; `body` a document, `size` its length and hash.

mod asks;
mod fixtures;
mod sent;
mod signed;

use crate::lines::{word_and_rest, written};
use std::alloc::{AllocError, Global};

/// Adds what the call of that name answers.
fn push_answer(alloc: Global, out: &mut String, call: &str, text: &str) -> Result<(), AllocError> {
    match call {
        "canonical" | "signed" => signed::push_canonical(alloc, out, call, text),
        "keyed" => signed::push_keyed(alloc, out, text),
        "to_sign" => signed::push_string_to_sign(alloc, out, text),
        "key" => signed::push_key_of_a_day(alloc, out, text),
        "url" => signed::push_url(alloc, out, text),
        _ => sent::push_sent(alloc, out, call, text),
    }
}

/// Adds the number of a line with its answer.
pub(crate) fn push_row(alloc: Global, out: &mut String, line: &str) -> Result<(), AllocError> {
    let (number, rest) = word_and_rest(line);
    let (call, spelled) = word_and_rest(rest);
    write!(out, "{number} ")?;
    let text = written(alloc, spelled)?;
    push_answer(alloc, out, call, text.as_str())
}
