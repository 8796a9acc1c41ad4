//! Answers as lines spell them.

use crate::bytes::add_bytes;
use crate::lines::{count, http, made, push};
use crate::rows::add;
use std::alloc::Global;

/// The length of a large body.
pub(crate) const LARGE: usize = 600_007;

fn add_piece(alloc: Global, text: &mut String, piece: &str) {
    match piece.split_once('×') {
        Some((times, unit)) => {
            let many = made(alloc, unit.repeat(alloc, count(times)));
            add(text, many.as_str());
        }
        None => add(text, piece),
    }
}

/// The text that is spelled so.
pub(crate) fn written(alloc: Global, spelled: &str) -> String {
    let mut text = String::new(alloc);
    for piece in spelled.split('|') {
        add_piece(alloc, &mut text, piece);
    }
    http(alloc, text.as_str())
}

/// The byte of a large body at that place: no two pieces of it are the same.
pub(crate) fn large_byte(place: usize) -> u8 {
    (place % 251) as u8
}

fn add_large_body(bytes: &mut Vec<u8>) {
    for place in 0..LARGE {
        push(bytes, large_byte(place));
    }
}

/// The bytes that are spelled so, with a large body where the bar is.
pub(crate) fn large_answer(alloc: Global, spelled: &str) -> Vec<u8> {
    let (front, behind) = spelled.split_once('|').unwrap_or((spelled, ""));
    let mut bytes = written(alloc, front).into_bytes();
    add_large_body(&mut bytes);
    let behind = written(alloc, behind);
    add_bytes(&mut bytes, behind.as_bytes());
    bytes
}
