//! Asks from the name of an operation and a line of values, as `key=a b; content=text/plain`.

use crate::lines::small_number;
use crate::requests::fixtures::{optional_text, said, text, value};
use s3_model::{Ask, OutOfMemory, Text, Texts};
use std::alloc::Global;

fn push_text(alloc: Global, texts: &mut Texts, text: &str) -> Result<(), OutOfMemory> {
    texts.reserve(1)?;
    texts.push(Text::of(alloc, text)?);
    Ok(())
}

/// The texts of a list; those for which there is memory.
fn texts(alloc: Global, spelled: &str) -> Texts {
    let mut texts = Texts::make(alloc);
    for text in spelled.split(',') {
        let _ = push_text(alloc, &mut texts, text);
    }
    texts
}

fn number(values: &str, name: &str) -> u32 {
    small_number(said(values, name))
}

/// The range from `first` to `last`.
fn range(values: &str) -> (u64, u64) {
    let first = u64::from(number(values, "first"));
    let last = u64::from(number(values, "last"));
    (first, last)
}

fn optional_range(values: &str) -> Option<(u64, u64)> {
    match value(values, "first") {
        Some(_) => Some(range(values)),
        None => None,
    }
}

fn head(alloc: Global, values: &str) -> Ask {
    Ask::Head {
        bucket: text(alloc, values, "bucket"),
        key: text(alloc, values, "key"),
    }
}

fn get(alloc: Global, values: &str) -> Ask {
    Ask::Get {
        bucket: text(alloc, values, "bucket"),
        key: text(alloc, values, "key"),
        etag: text(alloc, values, "etag"),
        range: optional_range(values),
    }
}

fn put(alloc: Global, values: &str) -> Ask {
    Ask::Put {
        bucket: text(alloc, values, "bucket"),
        key: text(alloc, values, "key"),
        content: optional_text(alloc, values, "content"),
        fresh: value(values, "fresh").is_some(),
    }
}

fn create(alloc: Global, values: &str) -> Ask {
    Ask::Create {
        bucket: text(alloc, values, "bucket"),
        key: text(alloc, values, "key"),
        content: optional_text(alloc, values, "content"),
    }
}

fn list(alloc: Global, values: &str) -> Ask {
    Ask::List {
        bucket: text(alloc, values, "bucket"),
        prefix: text(alloc, values, "key"),
        delimited: value(values, "delimited").is_some(),
        token: optional_text(alloc, values, "token"),
    }
}

fn delete(alloc: Global, values: &str) -> Ask {
    Ask::Delete {
        bucket: text(alloc, values, "bucket"),
        key: text(alloc, values, "key"),
    }
}

fn part(alloc: Global, values: &str) -> Ask {
    Ask::Part {
        bucket: text(alloc, values, "bucket"),
        key: text(alloc, values, "key"),
        upload: text(alloc, values, "upload"),
        number: number(values, "number"),
    }
}

fn complete(alloc: Global, values: &str) -> Ask {
    Ask::Complete {
        bucket: text(alloc, values, "bucket"),
        key: text(alloc, values, "key"),
        upload: text(alloc, values, "upload"),
        etags: texts(alloc, said(values, "etags")),
        fresh: value(values, "fresh").is_some(),
    }
}

fn abort(alloc: Global, values: &str) -> Ask {
    Ask::Abort {
        bucket: text(alloc, values, "bucket"),
        key: text(alloc, values, "key"),
        upload: text(alloc, values, "upload"),
    }
}

fn copy(alloc: Global, values: &str) -> Ask {
    Ask::Copy {
        bucket: text(alloc, values, "bucket"),
        key: text(alloc, values, "key"),
        from_bucket: text(alloc, values, "from_bucket"),
        from_key: text(alloc, values, "from_key"),
        etag: text(alloc, values, "etag"),
    }
}

fn part_copy(alloc: Global, values: &str) -> Ask {
    Ask::PartCopy {
        bucket: text(alloc, values, "bucket"),
        key: text(alloc, values, "key"),
        upload: text(alloc, values, "upload"),
        number: number(values, "number"),
        from_bucket: text(alloc, values, "from_bucket"),
        from_key: text(alloc, values, "from_key"),
        etag: text(alloc, values, "etag"),
        range: range(values),
    }
}

/// An ask of an upload in parts, of a listing, or a copy. Any other name is that of the list of buckets.
fn other_ask(alloc: Global, name: &str, values: &str) -> Ask {
    match name {
        "Part" => part(alloc, values),
        "Complete" => complete(alloc, values),
        "Abort" => abort(alloc, values),
        "Copy" => copy(alloc, values),
        "PartCopy" => part_copy(alloc, values),
        "List" => list(alloc, values),
        _ => Ask::Buckets,
    }
}

/// The ask of that operation that has these values.
pub(crate) fn ask_named(alloc: Global, name: &str, values: &str) -> Ask {
    match name {
        "Head" => head(alloc, values),
        "Get" => get(alloc, values),
        "Put" => put(alloc, values),
        "Create" => create(alloc, values),
        "Delete" => delete(alloc, values),
        _ => other_ask(alloc, name, values),
    }
}
