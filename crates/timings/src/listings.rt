//! Listings of a thousand objects, read again and again.

use s3_replies::read_list;
use std::alloc::{AllocError, Global};

/// How many objects a listing has.
const OBJECTS: u32 = 1_000;

const HEAD: &str =
    "<?xml version=\"1.0\" encoding=\"UTF-8\"?>\n<ListBucketResult xmlns=\"http://s3.amazonaws.com/doc/2006-03-01/\"><Name>backups</Name><Prefix></Prefix><KeyCount>1000</KeyCount><MaxKeys>1000</MaxKeys><EncodingType>url</EncodingType><IsTruncated>false</IsTruncated>";

const TAIL: &str = "</ListBucketResult>";

fn object(alloc: Global, number: u32) -> Result<String, AllocError> {
    format!(in alloc;
        "<Contents><Key>photos/2026/{number:08}+copy%2B.jpg</Key><LastModified>2026-01-02T03:04:05.000Z</LastModified><ETag>&quot;d41d8cd98f00b204e9800998ecf8427e&quot;</ETag><Size>{number}</Size><StorageClass>STANDARD</StorageClass></Contents>"
    )
}

/// A listing as a service writes it.
pub(crate) fn listing(alloc: Global) -> Result<String, AllocError> {
    let mut text = String::from_str(alloc, HEAD)?;
    for number in 0..OBJECTS {
        let row = object(alloc, number)?;
        text.push_str(row.as_str())?;
    }
    text.push_str(TAIL)?;
    Ok(text)
}

/// The number of objects in all listings that were read, or none where one could not be read.
pub(crate) fn read_again(alloc: Global, text: &str, rounds: u32) -> Option<usize> {
    let mut objects: usize = 0;
    for _ in 0..rounds {
        let Ok(page) = read_list(alloc, text.as_bytes()) else {
            return None;
        };
        objects = objects.wrapping_add(page.entries.len());
    }
    Some(objects)
}
