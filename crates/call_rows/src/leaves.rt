//! Calls of paths, patterns and values.
//!
//! A line is the name of a call, a space, and the text that it reads. In a text `|12×ab|` stands for twelve times `ab`.
//! Two texts are parted by ` + ` or ` ~ `. Filters are words that begin with `+` or `-`, parted by spaces. An answer that
//! is a text stands in quotation marks.

mod paths;
pub(crate) mod patterns;
mod values;

use crate::leaves::paths::push_path_answer;
use crate::lines::{push_line, word_and_rest, written};
use std::alloc::{AllocError, Global};

/// Adds a call with its answer.
pub(crate) fn push_row(alloc: Global, out: &mut String, line: &str) -> Result<(), AllocError> {
    push_line(out, line)?;
    let (call, text) = word_and_rest(line);
    let text = written(alloc, text)?;
    push_path_answer(alloc, out, call, text.as_str())
}
