//! Documents of a service, with the value of each, or its first fault.
//!
//! A line is the reader, a space, and the document's bytes, in which `\xHH` stands for a byte and `\\` for `\`. Readers
//! are `error`, `list`, `buckets`, `created`, `completed`, `copied` and `part`.

mod shown;

use crate::documents::shown::push_answer;
use crate::lines::word_and_rest;
use std::alloc::{AllocError, Global};

/// The byte of two hexadecimal digits.
fn hex_byte(high: u8, low: u8) -> Option<u8> {
    let high = char::from(high).to_digit(16)?;
    let low = char::from(low).to_digit(16)?;
    Some((high * 16 + low) as u8)
}

/// The bytes that a line stands for.
fn bytes_of(alloc: Global, line: &[u8]) -> Result<Vec<u8>, AllocError> {
    let mut bytes = Vec::new(alloc);
    let mut rest = line;
    'pieces: loop {
        match rest {
            [] => return Ok(bytes),
            [b'\\', b'x', high, low, more @ ..] => {
                bytes.push(hex_byte(*high, *low).unwrap_or(0))?;
                rest = more;
            }
            [b'\\', b'\\', more @ ..] => {
                bytes.push(b'\\')?;
                rest = more;
            }
            [byte, more @ ..] => {
                bytes.push(*byte)?;
                rest = more;
            }
        }
    }
}

/// Adds what a reader answers to the document of a line.
pub(crate) fn push_row(alloc: Global, out: &mut String, line: &str) -> Result<(), AllocError> {
    let (reader, text) = word_and_rest(line);
    let doc = bytes_of(alloc, text.as_bytes())?;
    push_answer(alloc, out, reader, &doc)
}
