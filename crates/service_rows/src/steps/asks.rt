//! The requests of steps.

use crate::steps::words::{Spot, Words};
use crate::texts::text;
use s3_model::{Ask, Op, Text};
use std::alloc::Global;

fn head(alloc: Global, words: &mut Words<'_>) -> Ask {
    let Spot { bucket, key } = words.spot(alloc);
    Ask::Head { bucket, key }
}

fn get(alloc: Global, words: &mut Words<'_>) -> Ask {
    let Spot { bucket, key } = words.spot(alloc);
    let etag = words.etag(alloc);
    let range = words.range();
    Ask::Get {
        bucket,
        key,
        etag,
        range,
    }
}

/// What a Put asks; the bytes stand in front of its bucket.
fn put(alloc: Global, words: &mut Words<'_>) -> Ask {
    let Spot { bucket, key } = words.spot(alloc);
    let fresh = words.is("fresh");
    Ask::Put {
        bucket,
        key,
        content: None,
        fresh,
    }
}

/// An object under an entity tag.
#[derive(Drop)]
struct Source {
    spot: Spot,
    etag: Text,
}

fn next_source(alloc: Global, words: &mut Words<'_>) -> Source {
    let spot = words.spot(alloc);
    let etag = words.etag(alloc);
    Source { spot, etag }
}

fn copy(alloc: Global, words: &mut Words<'_>) -> Ask {
    let Spot { bucket, key } = words.spot(alloc);
    let Source { spot, etag } = next_source(alloc, words);
    Ask::Copy {
        bucket,
        key,
        from_bucket: spot.bucket,
        from_key: spot.key,
        etag,
    }
}

fn delete(alloc: Global, words: &mut Words<'_>) -> Ask {
    let Spot { bucket, key } = words.spot(alloc);
    Ask::Delete { bucket, key }
}

fn token(alloc: Global, word: &str) -> Option<Text> {
    if word == "-" {
        None
    } else {
        Some(text(alloc, word))
    }
}

fn list(alloc: Global, words: &mut Words<'_>) -> Ask {
    let Spot { bucket, key } = words.spot(alloc);
    let delimited = words.is("/");
    let token = token(alloc, words.next());
    Ask::List {
        bucket,
        prefix: key,
        delimited,
        token,
    }
}

fn create(alloc: Global, words: &mut Words<'_>) -> Ask {
    let Spot { bucket, key } = words.spot(alloc);
    Ask::Create {
        bucket,
        key,
        content: None,
    }
}

/// An upload in parts.
#[derive(Drop)]
struct Place {
    spot: Spot,
    upload: Text,
}

fn next_place(alloc: Global, words: &mut Words<'_>) -> Place {
    let spot = words.spot(alloc);
    let upload = words.text(alloc);
    Place { spot, upload }
}

fn part_number(words: &mut Words<'_>) -> u32 {
    words.next().parse::<u32>().unwrap_or(0)
}

fn part(alloc: Global, words: &mut Words<'_>) -> Ask {
    let Place { spot, upload } = next_place(alloc, words);
    let number = part_number(words);
    Ask::Part {
        bucket: spot.bucket,
        key: spot.key,
        upload,
        number,
    }
}

fn part_copy(alloc: Global, words: &mut Words<'_>) -> Ask {
    let Place { spot, upload } = next_place(alloc, words);
    let number = part_number(words);
    let source = next_source(alloc, words);
    let range = words.range().unwrap_or((0, 0));
    Ask::PartCopy {
        bucket: spot.bucket,
        key: spot.key,
        upload,
        number,
        from_bucket: source.spot.bucket,
        from_key: source.spot.key,
        etag: source.etag,
        range,
    }
}

fn complete(alloc: Global, words: &mut Words<'_>) -> Ask {
    let Place { spot, upload } = next_place(alloc, words);
    let etags = words.etags(alloc);
    let fresh = words.is("fresh");
    Ask::Complete {
        bucket: spot.bucket,
        key: spot.key,
        upload,
        etags,
        fresh,
    }
}

fn abort(alloc: Global, words: &mut Words<'_>) -> Ask {
    let Place { spot, upload } = next_place(alloc, words);
    Ask::Abort {
        bucket: spot.bucket,
        key: spot.key,
        upload,
    }
}

/// The operation of a step of that name; None where it is no request.
pub(crate) fn op_named(name: &str) -> Option<Op> {
    match name {
        "Head" => Some(Op::Head),
        "Get" => Some(Op::Get),
        "Put" => Some(Op::Put),
        "Copy" => Some(Op::Copy),
        "Delete" => Some(Op::Delete),
        "List" => Some(Op::List),
        "Buckets" => Some(Op::Buckets),
        "Create" => Some(Op::Create),
        "Part" => Some(Op::Part),
        "PartCopy" => Some(Op::PartCopy),
        "Complete" => Some(Op::Complete),
        "Abort" => Some(Op::Abort),
        _ => None,
    }
}

fn ask_of(alloc: Global, op: Op, words: &mut Words<'_>) -> Ask {
    match op {
        Op::Head => head(alloc, words),
        Op::Get => get(alloc, words),
        Op::Put => put(alloc, words),
        Op::Copy => copy(alloc, words),
        Op::Delete => delete(alloc, words),
        Op::List => list(alloc, words),
        Op::Buckets => Ask::Buckets,
        Op::Create => create(alloc, words),
        Op::Part => part(alloc, words),
        Op::PartCopy => part_copy(alloc, words),
        Op::Complete => complete(alloc, words),
        Op::Abort => abort(alloc, words),
    }
}

/// What a request asks, and the bytes that it sends.
#[derive(Drop)]
pub(crate) struct Request {
    pub ask: Ask,
    pub bytes: Text,
}

/// The bytes that a request sends: those of the word in front.
fn body(alloc: Global, op: Op, words: &mut Words<'_>) -> Text {
    match op {
        Op::Put | Op::Part => words.text(alloc),
        _ => text(alloc, ""),
    }
}

/// The request of a step.
pub(crate) fn request_of(alloc: Global, op: Op, words: &mut Words<'_>) -> Request {
    let bytes = body(alloc, op, words);
    let ask = ask_of(alloc, op, words);
    Request { ask, bytes }
}
