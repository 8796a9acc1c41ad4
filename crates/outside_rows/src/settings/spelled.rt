//! Words and texts as lines spell them.

use crate::lines::text_of;
use s3_model::Text;
use std::alloc::Global;

/// The text of a word; `-` stands for none.
pub(crate) fn option(alloc: Global, word: &str) -> Option<Text> {
    if word == "-" {
        None
    } else {
        Some(text_of(alloc, word))
    }
}

pub(crate) fn utf8_of(bytes: &[u8]) -> &str {
    str::from_utf8(bytes).unwrap_or("")
}
