//! Setting a service up, and what stands in it.

use crate::steps::scripts::{add_turn, add_write};
use crate::steps::words::{Spot, Words};
use s3_fakes::MemTable;
use s3_model::OutOfMemory;
use std::alloc::{AllocError, Global};

fn add_bucket(
    alloc: Global,
    table: &mut MemTable,
    words: &mut Words<'_>,
) -> Result<(), OutOfMemory> {
    let name = words.text(alloc);
    table.add_bucket(name.as_str())
}

/// Sets the service up; what came of it.
pub(crate) fn arrange(
    alloc: Global,
    table: &mut MemTable,
    name: &str,
    words: &mut Words<'_>,
) -> Result<&'static str, OutOfMemory> {
    let came = match name {
        "bucket" => add_bucket(alloc, table, words),
        "page" => {
            table.set_page(usize::try_from(words.number()).unwrap_or(1));
            Ok(())
        }
        "script" => add_turn(alloc, table, words),
        "foreign" => add_write(alloc, table, words),
        _ => return Ok("no step"),
    };
    match came {
        Ok(()) => Ok("ok"),
        Err(OutOfMemory) => Err(OutOfMemory),
    }
}

fn object_text(alloc: Global, etag: &str, bytes: &[u8]) -> Result<String, AllocError> {
    let text = std::str::from_utf8(bytes).unwrap_or("?");
    format!(in alloc; "{etag} [{text}]")
}

/// The object there, as it stands in the service.
pub(crate) fn shown_object(
    alloc: Global,
    table: &MemTable,
    spot: &Spot,
) -> Result<String, AllocError> {
    match table.object(spot.bucket.as_str(), spot.key.as_str()) {
        Some(object) => object_text(alloc, object.etag(), object.bytes()),
        None => String::from_str(alloc, "none"),
    }
}
