//! A document that is being written.

use crate::times::push_time;
use s3_model::OutOfMemory;
use std::alloc::Global;

/// A document that is being written, which is not whole once memory ran out.
#[derive(Drop)]
pub(crate) struct Document {
    text: String,
    is_whole: bool,
}

impl Document {
    pub(crate) fn make(alloc: Global) -> Document {
        Document {
            text: String::new(alloc),
            is_whole: true,
        }
    }

    /// Adds a text as it is.
    pub(crate) fn push(&mut self, text: &str) {
        self.is_whole &= self.text.push_str(text).is_ok();
    }

    pub(crate) fn push_letter(&mut self, letter: char) {
        self.is_whole &= self.text.push(letter).is_ok();
    }

    pub(crate) fn push_number(&mut self, number: u64) {
        self.is_whole &= write!(self.text, "{number}").is_ok();
    }

    /// Adds a byte as a URL has it, with `%` and two hexadecimal digits.
    pub(crate) fn push_escape(&mut self, byte: u8) {
        self.is_whole &= write!(self.text, "%{byte:02X}").is_ok();
    }

    pub(crate) fn push_time(&mut self, micros: u64) {
        self.is_whole &= push_time(&mut self.text, micros).is_ok();
    }

    /// The text of a whole document.
    pub(crate) fn into_text(self) -> Result<String, OutOfMemory> {
        if self.is_whole {
            Ok(self.text)
        } else {
            Err(OutOfMemory)
        }
    }
}
