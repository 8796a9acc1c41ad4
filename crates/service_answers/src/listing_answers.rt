//! Answers with listings.

use crate::document::Document;
use crate::documents::{begin, close, end, open, push_element, push_time};
use crate::escapes::push_url;
use s3_model::{Entry, Listed, OutOfMemory, Text};
use std::alloc::Global;

/// Adds an element that holds a name as it is written under `encoding-type=url`.
fn push_name(document: &mut Document, element: &str, name: &str) {
    open(document, element);
    push_url(document, name);
    close(document, element);
}

fn push_size(document: &mut Document, size: u64) {
    open(document, "Size");
    document.push_number(size);
    close(document, "Size");
}

fn push_entry(document: &mut Document, entry: &Entry) {
    document.push("<Contents>");
    push_name(document, "Key", entry.key.as_str());
    push_time(document, "LastModified", entry.micros);
    push_element(document, "ETag", entry.etag.as_str());
    push_size(document, entry.size);
    document.push("</Contents>");
}

fn push_prefix(document: &mut Document, prefix: &Text) {
    document.push("<CommonPrefixes>");
    push_name(document, "Prefix", prefix.as_str());
    document.push("</CommonPrefixes>");
}

/// What stands before the names of a page.
fn push_front(document: &mut Document, bucket: &str, page: &Listed) {
    push_element(document, "Name", bucket);
    push_element(document, "EncodingType", "url");
    push_element(
        document,
        "IsTruncated",
        if page.more { "true" } else { "false" },
    );
    if let Some(token) = &page.token {
        push_element(document, "NextContinuationToken", token.as_str());
    }
}

fn push_names(document: &mut Document, page: &Listed) {
    for entry in page.entries.as_slice() {
        push_entry(document, entry);
    }
    for prefix in page.prefixes.as_slice() {
        push_prefix(document, prefix);
    }
}

/// A page of a listing, with names as `encoding-type=url` has them.
pub(crate) fn page(alloc: Global, bucket: &str, page: &Listed) -> Result<String, OutOfMemory> {
    let mut document = begin(alloc, "ListBucketResult");
    push_front(&mut document, bucket, page);
    push_names(&mut document, page);
    end(document, "ListBucketResult")
}

fn push_bucket(document: &mut Document, entry: &Entry) {
    document.push("<Bucket>");
    push_element(document, "Name", entry.key.as_str());
    push_time(document, "CreationDate", entry.micros);
    document.push("</Bucket>");
}

/// The list of all buckets, with the times at which they were made.
pub(crate) fn buckets(alloc: Global, entries: &[Entry]) -> Result<String, OutOfMemory> {
    let mut document = begin(alloc, "ListAllMyBucketsResult");
    document.push("<Buckets>");
    for entry in entries {
        push_bucket(&mut document, entry);
    }
    document.push("</Buckets>");
    end(document, "ListAllMyBucketsResult")
}
