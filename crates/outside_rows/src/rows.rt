//! Rows as they grow. Where there is no memory a row loses what it had, so that it is wrong.

use std::fmt::Debug;
use std::io;

/// Adds a text.
pub(crate) fn add(row: &mut String, text: &str) {
    if row.push_str(text).is_err() {
        row.clear();
    }
}

/// Adds a value as `Debug` shows it.
pub(crate) fn add_shown<D: Debug + Drop>(row: &mut String, value: D) {
    if write!(row, "{value:?}").is_err() {
        row.clear();
    }
}

/// Adds a number behind a space.
pub(crate) fn add_number(row: &mut String, number: u64) {
    add(row, " ");
    add_shown(row, number);
}

/// Adds bytes that came.
pub(crate) fn add_came(row: &mut String, bytes: &[u8]) {
    match str::from_utf8(bytes) {
        Ok(text) => add_shown(row, text),
        Err(_) => add(row, "no UTF-8"),
    }
}

/// Adds what came of a call that answers nothing.
pub(crate) fn add_done(row: &mut String, came: io::Result<()>) {
    match came {
        Ok(()) => add(row, "done"),
        Err(_) => add(row, "not done"),
    }
}
