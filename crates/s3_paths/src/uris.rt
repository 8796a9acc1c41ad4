//! URIs of the scheme `s3`.

ghost use Rattle.std.specs.Prelude.{◌≡◌, ◌≢◌, OnOk, IfOk, IfErr, Some, None, Contains, drop, position, not};
ghost use Rattle.std.specs.List.{before_first, after_first};
ghost use Rattle.s3_paths.specs.Uris.{
  IsUri,
  is_slash,
  is_bucket_byte,
  bad_place,
  bucket_fault,
  key_fault,
  uri_fault,
  bucket_in,
  key_in,
  uri_text,
};

use s3_model::{OutOfMemory, Text, UriFault};
use std::alloc::Global;

const LONGEST_BUCKET: usize = 255;

/// In bytes.
pub(crate) const LONGEST_KEY: usize = 1024;

/// An object of an S3 service, or with an empty key a whole bucket.
#[derive(Drop)]
pub struct S3Uri {
    pub bucket: Text,
    pub key: Text,
}

/// What stands before the first `/`, and what follows it.
pub(crate) fn split_at_slash(text: &str) -> (&str, &str)
    ensures before { result.0.now ≡ before_first is_slash text.now }
    ensures after { result.1.now ≡ after_first is_slash text.now }
{
    match text.split_once('/') {
        Some((before, after)) => (before, after),
        None => (text, ""),
    }
}

fn is_bucket_byte(byte: u8) -> bool
    ensures { result ≡ is_bucket_byte byte }
{
    byte.is_ascii_alphanumeric() || byte == b'.' || byte == b'-' || byte == b'_'
}

fn bad_byte(bucket: &[u8]) -> Option<usize>
    ensures { result ≡ position (λ byte. not (is_bucket_byte byte)) bucket.now }
{
    bucket.iter().position(|byte| !is_bucket_byte(*byte))
}

fn bad_place(bucket: &[u8]) -> Option<usize>
    ensures { result ≡ bad_place bucket.now }
{
    let long = (bucket.len() > LONGEST_BUCKET).then_some(LONGEST_BUCKET);
    bad_byte(&bucket[..LONGEST_BUCKET.min(bucket.len())]).or(long)
}

fn bucket_fault(bucket: &str) -> Option<UriFault>
    ensures { result ≡ bucket_fault bucket.now }
{
    if bucket.is_empty() {
        return Some(UriFault::NoBucket);
    }
    bad_place(bucket.as_bytes()).map(UriFault::BadBucket)
}

fn key_fault(key: &str) -> Option<UriFault>
    ensures { result ≡ key_fault key.now }
{
    (key.len() > LONGEST_KEY).then_some(UriFault::LongKey(key.len()))
}

fn parts_of(text: &str) -> Result<(&str, &str), UriFault>
    ensures fits { OnOk result (uri_fault text.now ≡ None) }
    ensures bucket { IfOk result (λ parts. parts.0.now ≡ bucket_in text.now) }
    ensures key { IfOk result (λ parts. parts.1.now ≡ key_in text.now) }
    ensures fault { IfErr result (λ fault. uri_fault text.now ≡ Some fault) }
{
    let Some(rest) = text.strip_prefix("s3://") else {
        return Err(UriFault::NotS3);
    };
    let (bucket, key) = split_at_slash(rest);
    match bucket_fault(bucket).or(key_fault(key)) {
        Some(fault) => Err(fault),
        None => Ok((bucket, key)),
    }
}

impl S3Uri {
    /// Reads `s3://bucket/key`; a bucket without a `/` has the empty key.
    ///
    /// A bucket has 1 to 255 letters, digits, `.`, `-` and `_`, and a key has at most 1,024 bytes
    /// (Amazon S3 User Guide, "Object key naming guidelines").
    pub fn read(alloc: Global, text: &str) -> Result<S3Uri, UriFault>
        ensures fits { OnOk result (uri_fault text.now ≡ None) }
        ensures bucket { IfOk result (λ uri. uri.bucket ≡ bucket_in text.now) }
        ensures key { IfOk result (λ uri. uri.key ≡ key_in text.now) }
        ensures uri { IfOk result (λ uri. IsUri text.now uri.bucket uri.key) }
        ensures printed { IfOk result (λ uri. Contains (drop 5 text.now) 47 → uri_text uri.bucket uri.key ≡ text.now) }
        ensures fault { IfErr result (λ fault. fault ≢ UriFault.Memory → uri_fault text.now ≡ Some fault) }
    {
        let (bucket, key) = parts_of(text)?;
        match (Text::of(alloc, bucket), Text::of(alloc, key)) {
            (Ok(bucket), Ok(key)) => Ok(S3Uri { bucket, key }),
            _ => Err(UriFault::Memory),
        }
    }

    /// The text `s3://bucket/key`.
    pub fn print(&self, alloc: Global) -> Result<Text, OutOfMemory>
        ensures { IfOk result (λ text. text ≡ uri_text self.now.bucket self.now.key) }
    {
        Text::joined(
            alloc,
            &["s3://", self.bucket.as_str(), "/", self.key.as_str()],
        )
    }
}
