//! What came for a request, and why nothing came.

ghost use Rattle.std.specs.Prelude.{◌≡◌};
ghost use Rattle.std.specs.Str.{bytes_eq};
ghost use Rattle.s3_model.specs.Classes.{tried_again_codes};
ghost use Rattle.s3_model.specs.Files.{is_listed};

use crate::bytes::Bytes;
use crate::list::{Entries, Texts};
use crate::text::Text;
use crate::upload_id::UploadId;

/// One page of a listing.
#[derive(Drop)]
pub struct Listed {
    pub entries: Entries,
    pub prefixes: Texts,
    pub more: bool,
    pub token: Option<Text>,
}

/// What a successful answer says. `range` is a Content-Range: first byte, last byte, size of the whole.
#[derive(Drop)]
pub enum Reply {
    Stored,
    Found {
        size: u64,
        etag: Text,
        micros: u64,
    },
    Got {
        status: u16,
        range: Option<(u64, u64, u64)>,
        length: u64,
    },
    Gone,
    Created {
        upload: UploadId,
    },
    PartStored {
        etag: Text,
    },
    Copied,
    Completed,
    Listed(Listed),
    BucketList(Entries),
}

/// A whole answer as it was read: `length` is the stated content length, `taken` the length of the body.
#[derive(Drop)]
pub struct Answered {
    pub status: u16,
    pub etag: Option<Text>,
    pub length: Option<u64>,
    pub range: Option<(u64, u64, u64)>,
    pub micros: Option<u64>,
    pub keep: bool,
    pub taken: u64,
    pub body: Bytes,
}

/// Why nobody can know what a request did.
#[derive(Clone, Copy, Debug)]
pub enum Why {
    WireFailed,
    EndedEarly,
    NotHttp,
    HeadTooLong,
    BodyTooLong(u64),
    BadLength,
    BadChunk,
    Memory,
    Status(u16),
    Internal,
    Document,
}

/// What came back of one request.
#[derive(Drop)]
pub enum Talked {
    Answered(Answered),
    Broken(Why),
}

/// What an answer means for its request.
#[derive(Drop)]
pub enum Class {
    Success(Reply),
    Refusal { code: Text, message: Text },
    Uncertain(Why),
}

/// Whether a code has that name, compared whole.
fn is_code(code: &str, name: &str) -> bool
    ensures { result ≡ bytes_eq name.now code.now }
{
    name == code
}

/// Whether a refusal with that code passes by itself, so that the request is tried again: `SlowDown`,
/// `ServiceUnavailable` and `RequestTimeout`.
#[tactic(auto, using(crate::proofs::CodeLemmas::one_of_three))]
pub fn is_passing(code: &str) -> bool
    ensures { result ≡ is_listed tried_again_codes code.now }
{
    is_code(code, "SlowDown")
        || is_code(code, "ServiceUnavailable")
        || is_code(code, "RequestTimeout")
}
