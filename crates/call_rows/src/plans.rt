//! Errands with the entries of both sides, with the plan of each, or why there is none.
//!
//! A line is `CALL FROM TO TIMES FLAGS | FILTERS | SOURCE | DEST`. A place is `BUCKET:KEY` or a path, an entry
//! `KEY,SIZE,MICROS,ETAG`, and a filter a `+` or a `-` with its pattern. Flags are `m` for many names, `d` for removals,
//! `v` for a move, `g` for guessed content types, `c` for the content type `text/x`, `f` for transfers that replace
//! nothing, and `s` for objects of up to 1 TiB; else none has more than 8 bytes. A plan is its tasks, each with size, time
//! and ETag, and then its warnings. `interop/plans.py` writes the lines, and works the plans out by itself.

mod errands;
pub(crate) mod shown;
pub(crate) mod sides;
mod words;

use crate::lines::push_line;
use crate::plans::errands::planned;
use crate::plans::shown::{push_fault, push_plan};
use crate::plans::words::words_of;
use std::alloc::{AllocError, Global};
use std::mem;

/// Adds a line with what comes of it.
pub(crate) fn push_row(alloc: Global, out: &mut String, line: &str) -> Result<(), AllocError> {
    push_line(out, line)?;
    match planned(alloc, &words_of(line)) {
        Some(Ok(plan)) => {
            let pushed = push_plan(alloc, out, &plan);
            mem::drop(plan);
            pushed
        }
        Some(Err(fault)) => {
            let pushed = push_fault(out, &fault);
            mem::drop(fault);
            pushed
        }
        None => out.push_str("no errand"),
    }
}
