//! What lines spell, and how answers are shown.

use s3_model::{OutOfMemory, Text};
use std::alloc::{AllocError, Global};

/// The word in front of the first space, and the rest.
pub(crate) fn word_and_rest(text: &str) -> (&str, &str) {
    text.split_once(' ').unwrap_or((text, ""))
}

/// A word as a text, which is empty where there is no memory.
pub(crate) fn text_of(alloc: Global, word: &str) -> Text {
    match Text::of(alloc, word) {
        Ok(text) => text,
        Err(OutOfMemory) => Text::from(String::new(alloc)),
    }
}

/// A line with its answer.
pub(crate) fn row(alloc: Global, line: &str, answer: &str) -> Result<String, AllocError> {
    format!(in alloc; "{line} => {answer}")
}
