//! What lines spell. Where there is no memory it is empty, so that its row is wrong.

use s3_model::{OutOfMemory, Text};
use std::alloc::{AllocError, Global};

/// The word in front of the first space, and the rest.
pub(crate) fn word_and_rest(text: &str) -> (&str, &str) {
    text.split_once(' ').unwrap_or((text, ""))
}

/// The field in front of the first bar, and the rest.
pub(crate) fn field_and_rest(text: &str) -> (&str, &str) {
    text.split_once(" | ").unwrap_or((text, ""))
}

pub(crate) fn number(text: &str) -> u64 {
    text.parse::<u64>().unwrap_or(0)
}

pub(crate) fn count(text: &str) -> usize {
    text.parse::<usize>().unwrap_or(0)
}

/// Adds an item to a list, which is empty then where there is no memory.
pub(crate) fn push<T: Drop>(items: &mut Vec<T>, item: T) {
    if items.push(item).is_err() {
        items.clear();
    }
}

/// The numbers of a list, parted by commas.
pub(crate) fn numbers(alloc: Global, text: &str) -> Vec<usize> {
    let mut found = Vec::new(alloc);
    for piece in text.split(',') {
        if let Ok(number) = piece.parse::<usize>() {
            push(&mut found, number);
        }
    }
    found
}

pub(crate) fn text_of(alloc: Global, text: &str) -> Text {
    match Text::of(alloc, text) {
        Ok(text) => text,
        Err(OutOfMemory) => Text::from(String::new(alloc)),
    }
}

/// A text that was made.
pub(crate) fn made(alloc: Global, text: Result<String, AllocError>) -> String {
    match text {
        Ok(text) => text,
        Err(AllocError) => String::new(alloc),
    }
}

/// The text with each `¶` as the end of a line of HTTP, and each `↵` as a line feed.
pub(crate) fn http(alloc: Global, text: &str) -> String {
    let text = made(alloc, text.replace(alloc, '¶', "\r\n"));
    made(alloc, text.replace(alloc, '↵', "\n"))
}
