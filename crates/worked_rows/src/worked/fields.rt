//! The fields of a line.

use std::alloc::{AllocError, Global};

fn push_letter(text: &mut String, letter: char) -> Result<(), AllocError> {
    match letter {
        '¶' => text.push_str("\r\n"),
        '§' => text.push('\n'),
        _ => text.push(letter),
    }
}

/// Adds a piece: a text, or `12×ab` for twelve times `ab`.
fn push_piece(text: &mut String, piece: &str) -> Result<(), AllocError> {
    if let Some((count, unit)) = piece.split_once('×') {
        for _ in 0..count.parse::<u32>().unwrap_or(0) {
            text.push_str(unit)?;
        }
        return Ok(());
    }
    for letter in piece.chars() {
        push_letter(text, letter)?;
    }
    Ok(())
}

/// The line that is spelled so.
pub(crate) fn written(alloc: Global, spelled: &str) -> Result<String, AllocError> {
    let mut text = String::new(alloc);
    for piece in spelled.split('|') {
        push_piece(&mut text, piece)?;
    }
    Ok(text)
}

/// The value of a field, if it has that name.
pub(crate) fn value_in<'a>(field: &'a str, name: &str) -> Option<&'a str> {
    let (named, value) = field.split_once('=')?;
    if named == name { Some(value) } else { None }
}

/// The value of the first field of that name; an empty one where there is none.
pub(crate) fn value<'a>(row: &'a str, name: &str) -> &'a str {
    for field in row.split("; ") {
        if let Some(value) = value_in(field, name) {
            return value;
        }
    }
    ""
}
