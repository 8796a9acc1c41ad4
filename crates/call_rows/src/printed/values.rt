//! Values as lines spell them.

use crate::lines::{parted, text_of};
use s3_model::{Op, Place, Why};
use std::alloc::Global;

/// What stands in front of the first bar, and what is behind it.
pub(crate) fn front_and_rest(text: &str) -> (&str, &str) {
    parted(text, " | ")
}

/// The place that is written so.
pub(crate) fn place_of(alloc: Global, written: &str) -> Place {
    let Some(object) = written.strip_prefix("s3://") else {
        return Place::File {
            path: text_of(alloc, written),
        };
    };
    let (bucket, key) = object.split_once('/').unwrap_or((object, ""));
    Place::Object {
        bucket: text_of(alloc, bucket),
        key: text_of(alloc, key),
    }
}

pub(crate) fn op_of(name: &str) -> Op {
    match name {
        "Head" => Op::Head,
        "Get" => Op::Get,
        "Put" => Op::Put,
        "Copy" => Op::Copy,
        "Delete" => Op::Delete,
        "Create" => Op::Create,
        "Part" => Op::Part,
        "PartCopy" => Op::PartCopy,
        "Complete" => Op::Complete,
        "Abort" => Op::Abort,
        "List" => Op::List,
        _ => Op::Buckets,
    }
}

pub(crate) fn why_of(name: &str) -> Why {
    match name {
        "WireFailed" => Why::WireFailed,
        "EndedEarly" => Why::EndedEarly,
        "NotHttp" => Why::NotHttp,
        "HeadTooLong" => Why::HeadTooLong,
        "BodyTooLong" => Why::BodyTooLong(9),
        "BadLength" => Why::BadLength,
        "BadChunk" => Why::BadChunk,
        "Memory" => Why::Memory,
        "Internal" => Why::Internal,
        "Document" => Why::Document,
        status => Why::Status(status.parse::<u16>().unwrap_or(0)),
    }
}
