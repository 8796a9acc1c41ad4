//! The bytes of an answer that is being written.

use s3_model::OutOfMemory;
use std::alloc::{AllocError, Global};

/// The bytes of an answer that is being written, which are not whole once memory ran out.
#[derive(Drop)]
pub(crate) struct Output {
    bytes: Vec<u8>,
    is_whole: bool,
}

impl Output {
    pub(crate) fn make(alloc: Global) -> Output {
        Output {
            bytes: Vec::new(alloc),
            is_whole: true,
        }
    }

    pub(crate) fn push(&mut self, bytes: &[u8]) {
        self.is_whole &= self.bytes.extend_from_slice(bytes).is_ok();
    }

    /// Adds a text, where there was memory to make it.
    pub(crate) fn push_made(&mut self, text: Result<String, AllocError>) {
        match text {
            Ok(text) => self.push(text.as_bytes()),
            Err(_) => self.is_whole = false,
        }
    }

    /// The bytes, where they are whole.
    pub(crate) fn into_bytes(self) -> Result<Vec<u8>, OutOfMemory> {
        if self.is_whole {
            Ok(self.bytes)
        } else {
            Err(OutOfMemory)
        }
    }
}
