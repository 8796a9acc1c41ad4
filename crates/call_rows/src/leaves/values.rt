//! Values of a service's documents, and patterns.

use crate::leaves::patterns::{keeps, stands};
use crate::lines::{parted, push_text, push_value};
use reply_values::{is_etag, is_key, is_upload_id, number, time, truth, unescape, url_decode};
use std::alloc::{AllocError, Global};

/// Adds what a call answers that reads a pattern or a value.
pub(crate) fn push_value_answer(
    alloc: Global,
    out: &mut String,
    call: &str,
    text: &str,
) -> Result<(), AllocError> {
    let (front, behind) = parted(text, " ~ ");
    match call {
        "pattern" => push_value(out, stands(alloc, front, behind)),
        "filters" => push_value(out, keeps(alloc, front, behind)),
        "unescape" => push_text(out, unescape(alloc, text)),
        "url" => push_text(out, url_decode(alloc, text)),
        "number" => push_value(out, number(text)),
        "truth" => push_value(out, truth(text)),
        "time" => push_value(out, time(text)),
        "etag" => push_value(out, is_etag(text)),
        "name" => push_value(out, is_key(text)),
        "upload" => push_value(out, is_upload_id(text)),
        _ => out.push_str("?"),
    }
}
