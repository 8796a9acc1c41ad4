//! Canonical requests, hashes, keys and signatures.

use crate::lines::{push_text, push_value};
use crate::requests::fixtures::{MOMENT, amount, endpoint, keys, pairs, said, text};
use presigned_urls::{PresignFault, presign};
use s3_model::{OutOfMemory, Pairs, Text};
use s3_paths::S3Uri;
use s3_requests::{
    canonical_request, has_sorted_names, hmac_sha256, payload_hash, signature, signing_key,
    string_to_sign,
};
use std::alloc::{AllocError, Global};
use std::mem;

/// The canonical request of a GET; None where its names of headers are not sorted.
fn canonical_text(
    alloc: Global,
    values: &str,
    query: &Pairs,
    headers: &Pairs,
) -> Result<Option<Text>, OutOfMemory> {
    if !has_sorted_names(headers) {
        return Ok(None);
    }
    let (path, payload) = (said(values, "path"), said(values, "payload"));
    let text = canonical_request(alloc, "GET", path, query, headers, payload)?;
    Ok(Some(text))
}

fn canonical_of(alloc: Global, values: &str) -> Result<Option<Text>, OutOfMemory> {
    let query = pairs(alloc, said(values, "query"));
    let headers = pairs(alloc, said(values, "headers"));
    canonical_text(alloc, values, &query, &headers)
}

/// The signature by the keys of the examples.
fn signature_of(alloc: Global, text: &str) -> Result<Text, OutOfMemory> {
    let keys = keys(alloc, "");
    let digits = signature(alloc, &keys, MOMENT, text);
    mem::drop(keys);
    digits
}

/// Adds the hash of a canonical request, and its signature.
fn push_signature(alloc: Global, out: &mut String, text: &str) -> Result<(), AllocError> {
    let hash = payload_hash(text.as_bytes());
    match signature_of(alloc, text) {
        Ok(digits) => write!(out, "{} {}", hash.as_str(), digits.as_str()),
        Err(fault) => push_value(out, fault),
    }
}

/// Adds the canonical request, or its hash and its signature.
pub(crate) fn push_canonical(
    alloc: Global,
    out: &mut String,
    call: &str,
    values: &str,
) -> Result<(), AllocError> {
    match canonical_of(alloc, values) {
        Ok(Some(text)) if call == "canonical" => push_value(out, text.as_str()),
        Ok(Some(text)) => push_signature(alloc, out, text.as_str()),
        Ok(None) => out.push_str("names that are not sorted"),
        Err(fault) => push_value(out, fault),
    }
}

/// The bytes of these hexadecimal digits; none where they are no such.
fn bytes(alloc: Global, digits: &str) -> Vec<u8> {
    hex::decode(alloc, digits.as_bytes()).unwrap_or(Vec::new(alloc))
}

fn push_digits(alloc: Global, out: &mut String, bytes: [u8; 32]) -> Result<(), AllocError> {
    let digits = hex::encode(alloc, bytes)?;
    out.push_str(digits.as_str())
}

/// Adds the HMAC-SHA-256 of a message under a key.
pub(crate) fn push_keyed(alloc: Global, out: &mut String, values: &str) -> Result<(), AllocError> {
    let key = bytes(alloc, said(values, "key"));
    let message = bytes(alloc, said(values, "message"));
    push_digits(alloc, out, hmac_sha256(&key, &message))
}

/// Adds the string to sign of an empty canonical request.
pub(crate) fn push_string_to_sign(
    alloc: Global,
    out: &mut String,
    values: &str,
) -> Result<(), AllocError> {
    let moment = amount(values, "moment");
    if moment >= 253_402_300_800 {
        return out.push_str("no moment of a year of four digits");
    }
    push_text(
        out,
        string_to_sign(alloc, moment, said(values, "region"), ""),
    )
}

pub(crate) fn push_key_of_a_day(
    alloc: Global,
    out: &mut String,
    values: &str,
) -> Result<(), AllocError> {
    let (secret, date) = (said(values, "secret"), said(values, "date"));
    match signing_key(alloc, secret, date, said(values, "region")) {
        Ok(key) => push_digits(alloc, out, key),
        Err(fault) => push_value(out, fault),
    }
}

fn uri(alloc: Global, values: &str) -> S3Uri {
    S3Uri {
        bucket: text(alloc, values, "bucket"),
        key: text(alloc, values, "key"),
    }
}

/// A presigned URL, or why there is none.
fn url(alloc: Global, values: &str) -> Result<Text, PresignFault> {
    let uri = uri(alloc, values);
    let endpoint = endpoint(alloc);
    let keys = keys(alloc, values);
    let (moment, seconds) = (amount(values, "moment"), amount(values, "seconds"));
    let url = presign(alloc, &uri, &endpoint, &keys, moment, seconds);
    mem::drop(keys);
    mem::drop(endpoint);
    url
}

/// Adds a presigned URL, or why there is none.
pub(crate) fn push_url(alloc: Global, out: &mut String, values: &str) -> Result<(), AllocError> {
    match url(alloc, values) {
        Ok(url) => out.push_str(url.as_str()),
        Err(fault) => push_value(out, fault),
    }
}
