//! Errands of commands, what local sources come to, and the entries of single objects.
//!
//! A line is one of these. `errand MARK WORDS`: a command line, with `into` for the mark where its destination is a
//! folder that exists, and else `-`; its errand is printed, and behind it what is left of the command. `source HOW PATH
//! SHAPE`: `one` or `many` files are wanted, and a shape is `absent`, `folder`, `other`, or a file's `SIZE,MICROS`.
//! `object BUCKET:KEY SIZE,MICROS,ETAG` and `removal BUCKET:KEY`.

mod shown;
mod singles;
mod sources;
mod takes;

use crate::errands::singles::{push_object, push_removal};
use crate::errands::sources::push_source;
use crate::errands::takes::push_errand;
use crate::lines::{push_line, word_and_rest};
use std::alloc::{AllocError, Global};

/// Adds a line with what comes of it.
pub(crate) fn push_row(alloc: Global, out: &mut String, line: &str) -> Result<(), AllocError> {
    push_line(out, line)?;
    let (call, rest) = word_and_rest(line);
    match call {
        "errand" => push_errand(alloc, out, rest),
        "source" => push_source(alloc, out, rest),
        "object" => push_object(alloc, out, rest),
        "removal" => push_removal(alloc, out, rest),
        _ => out.push_str("no call"),
    }
}
