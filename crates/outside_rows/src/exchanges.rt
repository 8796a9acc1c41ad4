//! Exchanges over a wire that plays the bytes of an answer, with what each comes to.
//!
//! `answer`, `bodyless`, `limited` and `large` name how many bytes the wire moves at a time at most, one number or all
//! between two, and print what the answer comes to by each of them: the status, the stated length, the length of the body
//! and the body, or why there is no answer. `bodyless` asks with a HEAD; `limited` takes at most 5 bytes of a body into its
//! place, and `large` at most 600,007, where a large body stands in place of the bar. `cuts` plays the fronts of an answer,
//! and prints what none of it comes to, and from which length on it comes to something else. In an answer `¶` stands for
//! the end of a line, `↵` for a line feed, and `|12×ab|` for twelve times `ab`.

mod calls;
mod cuts;
mod shown;
mod spelled;

use crate::exchanges::calls::add_answer;
use crate::rows::add;
use crate::sessions::Session;
use std::alloc::Global;

/// Adds a line with what it comes to.
pub(crate) fn add_row(alloc: Global, session: &mut Session, row: &mut String, line: &str) {
    add(row, line);
    add(row, " => ");
    add_answer(alloc, session, row, line);
}
