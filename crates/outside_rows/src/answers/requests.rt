//! A request for each operation.

use crate::lines::text_of;
use s3_model::{Ask, Texts};
use std::alloc::Global;

/// A request that says nothing but its object.
fn of_object(alloc: Global, operation: &str) -> Ask {
    let bucket = text_of(alloc, "b");
    let key = text_of(alloc, "k");
    match operation {
        "Head" => Ask::Head { bucket, key },
        "Put" => Ask::Put {
            bucket,
            key,
            content: None,
            fresh: false,
        },
        "Delete" => Ask::Delete { bucket, key },
        _ => Ask::Create {
            bucket,
            key,
            content: None,
        },
    }
}

/// A request of an upload in parts.
fn of_upload(alloc: Global, operation: &str) -> Ask {
    let bucket = text_of(alloc, "b");
    let key = text_of(alloc, "k");
    let upload = text_of(alloc, "upload");
    match operation {
        "Part" => Ask::Part {
            bucket,
            key,
            upload,
            number: 1,
        },
        "Complete" => Ask::Complete {
            bucket,
            key,
            upload,
            etags: Texts::make(alloc),
            fresh: false,
        },
        _ => Ask::Abort {
            bucket,
            key,
            upload,
        },
    }
}

fn get(alloc: Global) -> Ask {
    Ask::Get {
        bucket: text_of(alloc, "b"),
        key: text_of(alloc, "k"),
        etag: text_of(alloc, "\"e\""),
        range: None,
    }
}

fn copy(alloc: Global) -> Ask {
    Ask::Copy {
        bucket: text_of(alloc, "b"),
        key: text_of(alloc, "k"),
        from_bucket: text_of(alloc, "other"),
        from_key: text_of(alloc, "source"),
        etag: text_of(alloc, "\"e\""),
    }
}

fn part_copy(alloc: Global) -> Ask {
    Ask::PartCopy {
        bucket: text_of(alloc, "b"),
        key: text_of(alloc, "k"),
        upload: text_of(alloc, "upload"),
        number: 1,
        from_bucket: text_of(alloc, "other"),
        from_key: text_of(alloc, "source"),
        etag: text_of(alloc, "\"e\""),
        range: (0, 4),
    }
}

fn list(alloc: Global) -> Ask {
    Ask::List {
        bucket: text_of(alloc, "b"),
        prefix: text_of(alloc, "k"),
        delimited: false,
        token: None,
    }
}

/// A request of that operation. Any other name is that of the list of buckets.
pub(crate) fn request_named(alloc: Global, operation: &str) -> Ask {
    match operation {
        "Head" | "Put" | "Delete" | "Create" => of_object(alloc, operation),
        "Part" | "Complete" | "Abort" => of_upload(alloc, operation),
        "Get" | "LargeGet" => get(alloc),
        "Copy" => copy(alloc),
        "PartCopy" => part_copy(alloc),
        "List" => list(alloc),
        _ => Ask::Buckets,
    }
}
