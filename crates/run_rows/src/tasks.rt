//! Histories of one task, with what the task does in each.
//!
//! A line is `WORK | HAPPENING | HAPPENING ..`. A work is a kind and a size in bytes, with `move` in front where the
//! source goes. Below 8 bytes a task goes in one piece, from there on in pieces of 4 bytes and at most 4 of them, else in
//! longer ones; a job has 3 attempts. A happening is
//!
//! - `give`: the act that is ready is given;
//! - an act with its number, if it has one, and what came of it: of a call on files `fine`, `short`, `fault`, `memory` or
//!   `blocked/LENGTH`; of a job its attempts, `lost` and `refused/STATUS/CODE`, the last of them also `ok`,
//!   `lost/WHY` or a Get's `got/STATUS/LENGTH` or `got/STATUS/FIRST-LAST/SIZE`, or in place of it `memory` or, without
//!   attempts, `cut/REASON`;
//! - `cancel REASON`;
//! - a question: `failing`, `upload` or `tags`, which gives the entity tags of the parts away.
//!
//! At the start and after each happening stands the act that is ready, `wait` where none is and one is out, or the
//! outcome. Before it stands the number of earlier attempts where a job is given again. A happening that cannot come, as
//! the return of an act that is not out, changes nothing.

mod acts;
mod driver;
mod histories;
mod jobs_back;
mod shown;
mod works;

use crate::lines::row;
use crate::tasks::histories::answer_of;
use std::alloc::{AllocError, Global};

/// A line with what its task does.
pub(crate) fn row_of(alloc: Global, line: &str) -> Result<String, AllocError> {
    let answer = answer_of(alloc, line)?;
    row(alloc, line, answer.as_str())
}
