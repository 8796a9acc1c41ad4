//! Texts that are empty where there is no memory, so that their row is wrong.

use s3_model::{OutOfMemory, Text};
use std::alloc::Global;

/// A text that was made.
pub(crate) fn text_or_empty(alloc: Global, text: Result<Text, OutOfMemory>) -> Text {
    match text {
        Ok(text) => text,
        Err(OutOfMemory) => Text::from(String::new(alloc)),
    }
}

/// A word as a text.
pub(crate) fn text(alloc: Global, word: &str) -> Text {
    text_or_empty(alloc, Text::of(alloc, word))
}
