//! Bytes as lines spell them. Where there is no memory they are lost, so that their row is wrong.

use crate::lines::{count, push};
use std::alloc::Global;

/// Adds bytes.
pub(crate) fn add_bytes(bytes: &mut Vec<u8>, more: &[u8]) {
    if bytes.extend_from_slice(more).is_err() {
        bytes.clear();
    }
}

/// Bytes of one's own.
pub(crate) fn copied(alloc: Global, bytes: &[u8]) -> Vec<u8> {
    let mut copy = Vec::new(alloc);
    add_bytes(&mut copy, bytes);
    copy
}

fn push_byte(bytes: &mut Vec<u8>, byte: u8, rest: &str) {
    push(bytes, byte);
    add_bytes(bytes, rest.as_bytes());
}

/// Adds the byte of two hexadecimal digits, and what is behind them.
fn push_hex(bytes: &mut Vec<u8>, rest: &str) {
    let (digits, rest) = rest.split_at_checked(2).unwrap_or((rest, ""));
    push_byte(bytes, u8::from_str_radix(digits, 16).unwrap_or(0), rest);
}

/// Adds so many zero bytes, and what is behind their number.
fn push_zeros(bytes: &mut Vec<u8>, rest: &str) {
    let (digits, rest) = rest.split_once(';').unwrap_or((rest, ""));
    if bytes
        .resize(bytes.len().saturating_add(count(digits)), 0)
        .is_ok()
    {
        add_bytes(bytes, rest.as_bytes());
    }
}

/// Adds what follows a backslash: the letter of an escape, and what is behind it. What is no escape stays as it is.
fn push_piece(bytes: &mut Vec<u8>, piece: &str) {
    let rest = piece.get(1..).unwrap_or("");
    match piece.get(..1).unwrap_or("") {
        "x" => push_hex(bytes, rest),
        "z" => push_zeros(bytes, rest),
        "n" => push_byte(bytes, b'\n', rest),
        "r" => push_byte(bytes, b'\r', rest),
        _ => push_byte(bytes, b'\\', piece),
    }
}

/// The bytes that are written so.
pub(crate) fn bytes_of(alloc: Global, written: &str) -> Vec<u8> {
    let (plain, escaped) = written.split_once('\\').unwrap_or((written, ""));
    let mut bytes = copied(alloc, plain.as_bytes());
    if plain.len() < written.len() {
        for piece in escaped.split('\\') {
            push_piece(&mut bytes, piece);
        }
    }
    bytes
}
