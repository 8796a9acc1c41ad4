//! URIs, endpoints, keys and paths on the disk.

use crate::leaves::values::push_value_answer;
use crate::lines::{parted, push_text, push_value};
use s3_paths::{S3Uri, endpoint, key_of, local_of};
use std::alloc::{AllocError, Global};

fn push_uri(alloc: Global, out: &mut String, text: &str) -> Result<(), AllocError> {
    match S3Uri::read(alloc, text) {
        Ok(uri) => write!(
            out,
            "bucket {} key {}",
            uri.bucket.as_str(),
            uri.key.as_str()
        ),
        Err(fault) => push_value(out, fault),
    }
}

/// Adds the URI as it is printed.
fn push_printed(alloc: Global, out: &mut String, text: &str) -> Result<(), AllocError> {
    match S3Uri::read(alloc, text) {
        Ok(uri) => push_text(out, uri.print(alloc)),
        Err(fault) => push_value(out, fault),
    }
}

fn push_endpoint(alloc: Global, out: &mut String, text: &str) -> Result<(), AllocError> {
    match endpoint(alloc, text) {
        Ok(read) => write!(
            out,
            "{} port {} written {}",
            read.host.as_str(),
            read.port,
            read.written.as_str()
        ),
        Err(fault) => push_value(out, fault),
    }
}

/// Adds what a call answers, where it reads a path; else what one of another kind does.
pub(crate) fn push_path_answer(
    alloc: Global,
    out: &mut String,
    call: &str,
    text: &str,
) -> Result<(), AllocError> {
    let (front, behind) = parted(text, " + ");
    match call {
        "uri" => push_uri(alloc, out, text),
        "printed" => push_printed(alloc, out, text),
        "endpoint" => push_endpoint(alloc, out, text),
        "local" => push_text(out, local_of(alloc, front, behind)),
        "key" => push_text(out, key_of(alloc, front, behind)),
        _ => push_value_answer(alloc, out, call, text),
    }
}
