//! Rows of tables, and ids of uploads.

use s3_model::{Cases, UploadId};
use std::alloc::{AllocError, Global};

/// The names of a table.
pub(crate) const NAMES: Cases<4> = Cases {
    names: &["a", "b", "a", ""],
};

fn is_same(id: &UploadId, text: &str) -> bool {
    id.as_str() == text && id.copy().as_str() == text
}

fn answer_to(text: &str) -> &'static str {
    match UploadId::of(text) {
        Some(id) if is_same(&id, text) => "an id",
        Some(_) => "another id",
        None => "no id",
    }
}

/// Adds whether a text of that length is an id, and stays the same.
pub(crate) fn push_upload(alloc: Global, out: &mut String, length: &str) -> Result<(), AllocError> {
    let text = "x".repeat(alloc, length.parse::<usize>().unwrap_or(0))?;
    out.push_str(answer_to(text.as_str()))
}
