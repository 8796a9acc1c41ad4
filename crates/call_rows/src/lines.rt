//! What lines spell, and how values are shown.

use s3_model::{OutOfMemory, Text};
use std::alloc::{AllocError, Global};
use std::fmt::Debug;

/// The two texts that a mark parts.
pub(crate) fn parted<'a>(text: &'a str, mark: &str) -> (&'a str, &'a str) {
    text.split_once(mark).unwrap_or((text, ""))
}

/// The word in front of the first space, and the rest.
pub(crate) fn word_and_rest(text: &str) -> (&str, &str) {
    parted(text, " ")
}

pub(crate) fn number(text: &str) -> u64 {
    text.parse::<u64>().unwrap_or(0)
}

pub(crate) fn small_number(text: &str) -> u32 {
    text.parse::<u32>().unwrap_or(0)
}

/// A text; an empty one where there is no memory, so that its row is wrong.
pub(crate) fn text_of(alloc: Global, text: &str) -> Text {
    match Text::of(alloc, text) {
        Ok(text) => text,
        Err(OutOfMemory) => Text::from(String::new(alloc)),
    }
}

/// Adds a piece: a text, or `12×ab` for twelve times `ab`.
fn push_piece(alloc: Global, text: &mut String, piece: &str) -> Result<(), AllocError> {
    let Some((count, unit)) = piece.split_once('×') else {
        return text.push_str(piece);
    };
    let many = unit.repeat(alloc, count.parse::<usize>().unwrap_or(0))?;
    text.push_str(many.as_str())
}

/// The text that is spelled so.
pub(crate) fn written(alloc: Global, spelled: &str) -> Result<String, AllocError> {
    let mut text = String::new(alloc);
    for piece in spelled.split('|') {
        push_piece(alloc, &mut text, piece)?;
    }
    Ok(text)
}

pub(crate) fn push_value(out: &mut String, value: impl Debug + Drop) -> Result<(), AllocError> {
    write!(out, "{value:?}")
}

/// Adds an answer that is a text, or why there is none.
pub(crate) fn push_text<F: Debug + Drop>(
    out: &mut String,
    answer: Result<Text, F>,
) -> Result<(), AllocError> {
    match answer {
        Ok(text) => push_value(out, text.as_str()),
        Err(fault) => push_value(out, fault),
    }
}

/// Adds a line, behind which its answer stands.
pub(crate) fn push_line(out: &mut String, line: &str) -> Result<(), AllocError> {
    write!(out, "{line} => ")
}
