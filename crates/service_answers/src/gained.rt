//! What a request gained.

use s3_model::{Entries, Listed, Text};

/// What a HEAD tells of an object; its time is in microseconds since 1970.
#[derive(Drop)]
pub struct FoundObject {
    pub size: u64,
    pub etag: Text,
    pub micros: u64,
}

/// The bytes of an object, or of a range of it: first byte, last byte, size of the whole.
#[derive(Drop)]
pub struct GotObject {
    pub etag: Text,
    pub micros: u64,
    pub range: Option<(u64, u64, u64)>,
    pub bytes: Vec<u8>,
}

/// What a request that was served gained, before it is written.
#[derive(Drop)]
pub enum Gained {
    Found(FoundObject),
    Got(GotObject),
    Stored,
    Copied,
    Gone,
    Created(Text),
    PartStored(Text),
    PartCopied(Text),
    Completed,
    Listed(Listed),
    Buckets(Entries),
}
