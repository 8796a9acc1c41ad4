//! Uploads and small Puts over lanes.
//!
//! `in threads` and `in turn` are two wires to one service in memory, each with an upload of its own, of which the first
//! takes its answer only once the second sent its request: with both uploads at once, and in turn, where the first wire
//! waits in vain and counts a fault. `puts` are a few Puts over one lane, and one whose job is given again; `cell` is what
//! two holders of a cell hear.

mod cells;
mod gates;
pub(crate) mod puts;
mod uploads;

use crate::lanes::cells::cell_shown;
use crate::lanes::gates::both_shown;
use crate::lanes::puts::few_shown;
use s3_model::OutOfMemory;
use std::alloc::{AllocError, Global};
use std::rt::Clock;
use std::sync::Wait;
use std::thread::Threads;

/// What a line comes to.
pub(crate) fn row_of<R>(rt: &R, alloc: Global, line: &str) -> Result<String, AllocError>
where
    R: Threads + Wait + Clock + Clone + Send + Sync + Drop,
{
    match line {
        "in threads" | "in turn" => both_shown(rt, alloc, line),
        "puts" => few_shown(rt, alloc),
        _ => match cell_shown(alloc) {
            Ok(shown) => Ok(shown),
            Err(OutOfMemory) => Err(AllocError),
        },
    }
}
