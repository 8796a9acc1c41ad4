//! Runs of the executor, with what comes of each.
//!
//! `doubled COUNT` doubles so many numbers in one lane, from 4294967295 downwards. `in_turn` and `by_number` name `threads`
//! or `alone`, where no thread starts, how many lanes there are, and how many jobs a lane holds. `in_turn` gives so many jobs
//! to the lanes in turn, and prints of each lane its jobs and its outcomes; `by_number` gives each job to the lane of its
//! number, and prints the answers and the outcomes. `many` gives 20,000 jobs to 130 lanes; `idle` and `meeting` are single.

mod calls;
mod carriers;
mod idle;
mod lanes;
mod meeting;

use crate::executor::calls::answer_of;
use crate::lines::row;
use std::alloc::{AllocError, Global};
use std::sync::Wait;
use std::thread::Threads;

/// A run with what comes of it.
pub(crate) fn row_of<R: Threads + Wait + Clone + Send + Drop + 'static>(
    rt: &R,
    alloc: Global,
    clock: HostRuntime,
    line: &str,
) -> Result<String, AllocError> {
    let answer = answer_of(rt, alloc, clock, line)?;
    row(alloc, line, answer.as_str())
}
