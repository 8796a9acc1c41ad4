//! Calls of the printed texts, with the text that each answers.
//!
//! A line is the name of a call and what it is given: values, a status in place of the name `Status`, and then texts.
//! Behind ` | ` stands a text that may have spaces, how a task ended, or the task: its kind and its places.

mod causes;
mod faults;
mod listings;
mod tasks;
mod values;
mod warnings;

use crate::lines::{push_line, push_text, word_and_rest};
use crate::printed::faults::fault_line;
use s3_model::{OutOfMemory, Text};
use std::alloc::{AllocError, Global};

/// The text that a call answers.
fn answer_of(alloc: Global, line: &str) -> Result<Text, OutOfMemory> {
    let (call, given) = word_and_rest(line);
    match call {
        "cause" => causes::answer(alloc, given),
        "task" => tasks::line(alloc, given),
        "status" => tasks::status(alloc, given),
        "warning" => warnings::line(alloc, given),
        "row" => listings::object(alloc, given),
        "bucket" => listings::bucket(alloc, given),
        "prefix" => result_lines::ls_prefix(alloc, given),
        _ => fault_line(alloc, call, given),
    }
}

/// Adds a call with the text that it answers, in quotation marks.
pub(crate) fn push_row(alloc: Global, out: &mut String, line: &str) -> Result<(), AllocError> {
    push_line(out, line)?;
    push_text(out, answer_of(alloc, line))
}
