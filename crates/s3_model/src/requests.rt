//! The requests of the Amazon S3 API.

use crate::list::Texts;
use crate::text::Text;

/// One request of the Amazon S3 API. Ranges have both ends inside. A `fresh` one is to be refused where the object is
/// there.
#[derive(Drop)]
pub enum Ask {
    Head {
        bucket: Text,
        key: Text,
    },
    Get {
        bucket: Text,
        key: Text,
        etag: Text,
        range: Option<(u64, u64)>,
    },
    Put {
        bucket: Text,
        key: Text,
        content: Option<Text>,
        fresh: bool,
    },
    Copy {
        bucket: Text,
        key: Text,
        from_bucket: Text,
        from_key: Text,
        etag: Text,
    },
    Delete {
        bucket: Text,
        key: Text,
    },
    Create {
        bucket: Text,
        key: Text,
        content: Option<Text>,
    },
    Part {
        bucket: Text,
        key: Text,
        upload: Text,
        number: u32,
    },
    PartCopy {
        bucket: Text,
        key: Text,
        upload: Text,
        number: u32,
        from_bucket: Text,
        from_key: Text,
        etag: Text,
        range: (u64, u64),
    },
    Complete {
        bucket: Text,
        key: Text,
        upload: Text,
        etags: Texts,
        fresh: bool,
    },
    Abort {
        bucket: Text,
        key: Text,
        upload: Text,
    },
    List {
        bucket: Text,
        prefix: Text,
        delimited: bool,
        token: Option<Text>,
    },
    Buckets,
}

/// The operation of a request.
#[derive(Clone, Copy, Debug, PartialEq, Eq)]
pub enum Op {
    Head,
    Get,
    Put,
    Copy,
    Delete,
    Create,
    Part,
    PartCopy,
    Complete,
    Abort,
    List,
    Buckets,
}
