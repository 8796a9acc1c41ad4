//! What a request asks.

use crate::faults::RequestFault;
use crate::head::RequestHead;
use crate::reader::RequestReader;
use crate::target::Target;
use reply_values::{ReferenceFault, unescape as unescape_xml};
use s3_model::{Ask, OutOfMemory, Text, Texts};
use std::alloc::Global;
use std::mem;

/// What stands for any entity tag (RFC 9110, section 13.1.2).
const ANY_ETAG: &str = "*";

/// The two numbers of a range that is written `bytes=a-b`.
fn range_of(value: &str) -> Option<(u64, u64)> {
    let (first, last) = value.strip_prefix("bytes=")?.split_once('-')?;
    Some((first.parse::<u64>().ok()?, last.parse::<u64>().ok()?))
}

/// Whether nothing is to be replaced.
fn is_fresh(head: &RequestHead<'_>) -> bool {
    head.header("if-none-match") == Some(ANY_ETAG)
}

/// What stands between two texts.
fn between<'a>(text: &'a str, from: &str, to: &str) -> Option<&'a str> {
    let (_, rest) = text.split_once(from)?;
    let (inner, _) = rest.split_once(to)?;
    Some(inner)
}

/// The entity tag of one part of a document, as it is written there, where the part has that number.
fn raw_etag(part: &str, number: usize) -> Option<&str> {
    let stated = between(part, "<PartNumber>", "</PartNumber>")?;
    if stated.parse::<usize>().ok()? != number {
        return None;
    }
    between(part, "<ETag>", "</ETag>")
}

fn part_etag(alloc: Global, part: &str, number: usize) -> Result<Text, RequestFault> {
    let raw = raw_etag(part, number).ok_or(RequestFault::Unknown)?;
    match unescape_xml(alloc, raw) {
        Ok(etag) => Ok(etag),
        Err(ReferenceFault::Memory) => Err(RequestFault::Memory),
        Err(_) => Err(RequestFault::Unknown),
    }
}

/// The entity tags of a document that completes an upload, whose parts are numbered from 1.
fn etags_of(alloc: Global, document: &str) -> Result<Texts, RequestFault> {
    let mut etags = Texts::make(alloc);
    for (number, part) in document.split("<Part>").enumerate() {
        if number > 0 {
            etags.reserve(1)?;
            etags.push(part_etag(alloc, part, number)?);
        }
    }
    Ok(etags)
}

fn put_ask(reader: &mut RequestReader<'_>) -> Ask {
    Ask::Put {
        bucket: reader.bucket(),
        key: reader.key(),
        content: reader.header("content-type"),
        fresh: is_fresh(reader.head),
    }
}

/// The bucket and the key of a source that is written `bucket/key`.
fn source_names<'a>(reader: &mut RequestReader<'_>, source: &'a str) -> (&'a str, &'a str) {
    match source.split_once('/') {
        Some(names) => names,
        None => {
            reader.fail(RequestFault::Unknown);
            (source, "")
        }
    }
}

/// The entity tag that a source still has to have.
fn source_etag(reader: &mut RequestReader<'_>) -> Text {
    reader.wanted_header("x-amz-copy-source-if-match")
}

fn copy_ask(reader: &mut RequestReader<'_>, source: &str) -> Ask {
    let (from_bucket, from_key) = source_names(reader, source);
    Ask::Copy {
        bucket: reader.bucket(),
        key: reader.key(),
        from_bucket: reader.copy(from_bucket),
        from_key: reader.plain(from_key),
        etag: source_etag(reader),
    }
}

/// The number of a part.
fn part_number(reader: &mut RequestReader<'_>) -> u32 {
    match reader.value("partNumber").as_str().parse::<u32>() {
        Ok(number) => number,
        Err(_) => {
            reader.fail(RequestFault::Unknown);
            0
        }
    }
}

fn part_ask(reader: &mut RequestReader<'_>) -> Ask {
    Ask::Part {
        bucket: reader.bucket(),
        key: reader.key(),
        upload: reader.value("uploadId"),
        number: part_number(reader),
    }
}

/// The range of a source that is copied.
fn source_range(reader: &mut RequestReader<'_>) -> (u64, u64) {
    match reader
        .head
        .header("x-amz-copy-source-range")
        .and_then(range_of)
    {
        Some(range) => range,
        None => {
            reader.fail(RequestFault::Unknown);
            (0, 0)
        }
    }
}

fn part_copy_ask(reader: &mut RequestReader<'_>, source: &str) -> Ask {
    let (from_bucket, from_key) = source_names(reader, source);
    Ask::PartCopy {
        bucket: reader.bucket(),
        key: reader.key(),
        upload: reader.value("uploadId"),
        number: part_number(reader),
        from_bucket: reader.copy(from_bucket),
        from_key: reader.plain(from_key),
        etag: source_etag(reader),
        range: source_range(reader),
    }
}

fn stored_ask(reader: &mut RequestReader<'_>) -> Ask {
    let source = reader.head.header("x-amz-copy-source");
    match (reader.target.has("partNumber"), source) {
        (false, None) => put_ask(reader),
        (false, Some(source)) => copy_ask(reader, source),
        (true, None) => part_ask(reader),
        (true, Some(source)) => part_copy_ask(reader, source),
    }
}

fn get_ask(reader: &mut RequestReader<'_>) -> Ask {
    Ask::Get {
        bucket: reader.bucket(),
        key: reader.key(),
        etag: reader.wanted_header("if-match"),
        range: reader.head.header("range").and_then(range_of),
    }
}

/// The prefix of a listing, which is empty where none is asked for.
fn prefix_of(reader: &mut RequestReader<'_>) -> Text {
    match reader.option("prefix") {
        Some(prefix) => prefix,
        None => reader.copy(""),
    }
}

fn list_ask(reader: &mut RequestReader<'_>) -> Ask {
    Ask::List {
        bucket: reader.bucket(),
        prefix: prefix_of(reader),
        delimited: reader.target.has("delimiter"),
        token: reader.option("continuation-token"),
    }
}

fn read_ask(reader: &mut RequestReader<'_>) -> Ask {
    if reader.target.bucket.is_empty() {
        return Ask::Buckets;
    }
    if reader.target.key.is_empty() {
        return list_ask(reader);
    }
    get_ask(reader)
}

fn head_ask(reader: &mut RequestReader<'_>) -> Ask {
    Ask::Head {
        bucket: reader.bucket(),
        key: reader.key(),
    }
}

fn create_ask(reader: &mut RequestReader<'_>) -> Ask {
    Ask::Create {
        bucket: reader.bucket(),
        key: reader.key(),
        content: reader.header("content-type"),
    }
}

/// The entity tags of a body that completes an upload.
fn etags_in(alloc: Global, body: &[u8]) -> Result<Texts, RequestFault> {
    match std::str::from_utf8(body) {
        Ok(document) => etags_of(alloc, document),
        Err(_) => Err(RequestFault::Unknown),
    }
}

fn etags_or_none(reader: &mut RequestReader<'_>, body: &[u8]) -> Texts {
    match etags_in(reader.alloc, body) {
        Ok(etags) => etags,
        Err(fault) => {
            reader.fail(fault);
            Texts::make(reader.alloc)
        }
    }
}

fn complete_ask(reader: &mut RequestReader<'_>, body: &[u8]) -> Ask {
    Ask::Complete {
        bucket: reader.bucket(),
        key: reader.key(),
        upload: reader.value("uploadId"),
        etags: etags_or_none(reader, body),
        fresh: is_fresh(reader.head),
    }
}

fn posted_ask(reader: &mut RequestReader<'_>, body: &[u8]) -> Ask {
    if reader.target.has("uploads") {
        create_ask(reader)
    } else {
        complete_ask(reader, body)
    }
}

fn deleted_ask(reader: &mut RequestReader<'_>) -> Ask {
    match reader.option("uploadId") {
        Some(upload) => Ask::Abort {
            bucket: reader.bucket(),
            key: reader.key(),
            upload,
        },
        None => Ask::Delete {
            bucket: reader.bucket(),
            key: reader.key(),
        },
    }
}

/// What is asked with the method of the request; None where the service does not know it.
fn ask_by_method(reader: &mut RequestReader<'_>, body: &[u8]) -> Option<Ask> {
    match reader.head.method {
        "GET" => Some(read_ask(reader)),
        "HEAD" => Some(head_ask(reader)),
        "PUT" => Some(stored_ask(reader)),
        "POST" => Some(posted_ask(reader, body)),
        "DELETE" => Some(deleted_ask(reader)),
        _ => None,
    }
}

/// What a request asks; None where it is not one of those that the service knows.
pub fn ask_of(
    alloc: Global,
    head: &RequestHead<'_>,
    body: &[u8],
) -> Result<Option<Ask>, OutOfMemory> {
    let Some(target) = Target::read(head.target) else {
        return Ok(None);
    };
    let mut reader = RequestReader {
        alloc,
        head,
        target,
        fault: None,
    };
    let ask = ask_by_method(&mut reader, body);
    match reader.fault {
        None => Ok(ask),
        Some(RequestFault::Unknown) => {
            mem::drop(ask);
            Ok(None)
        }
        Some(RequestFault::Memory) => {
            mem::drop(ask);
            Err(OutOfMemory)
        }
    }
}
