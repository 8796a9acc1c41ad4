//! The headers that are signed, in the order of their names.
ghost use Rattle.std.specs.Prelude.{◌≡◌, ◌≤◌, ◌<◌, ◌++◌, ◌+◌, ◌∷◌, [], OnOk, codes, string_bytes};
ghost use Rattle.std.specs.Option.{option_copied};
ghost use Rattle.arrayvec.specs.ArrayVec.{array_vec_len};
ghost use Rattle.s3_requests.specs.Requests as spec;
ghost use Rattle.s3_requests.specs.Descriptions.{own_in, source_in};
ghost use Rattle.s3_requests.specs.Headers.{
  common_in,
  condition_headers,
  content_headers,
  copy_headers,
  copy_range_headers,
  range_text,
  source_text,
};
ghost use Rattle.s3_signing.specs.Headers.{pairs_of};
ghost use Rattle.s3_signing.specs.Pairs.{optional, sort_pairs};
ghost use Rattle.s3_signing.specs.Times.{basic_time};

use crate::description::{OwnHeaders, Source};
use arrayvec::ArrayVec;
use itoa::Buffer;
use s3_signing::{Header, push_basic_time, push_path};
use std::alloc::{AllocError, Global};

/// The headers of one request.
pub type Headers<'a> = ArrayVec<Header<'a>, 10>;

/// The values of a request's headers, its own ones among them. The range and the source are those that it names, or
/// empty.
#[derive(Clone, Copy)]
pub struct HeaderValues<'a> {
    pub own: OwnHeaders<'a>,
    pub host: &'a str,
    pub payload_hash: &'a str,
    pub date: &'a str,
    pub range: &'a str,
    pub source: &'a str,
    pub token: Option<&'a str>,
}

/// The values that are written for a request. They keep their memory from one request to the next.
#[derive(Drop)]
pub struct WrittenValues {
    pub date: String,
    pub range: String,
    pub source: String,
}

impl WrittenValues {
    /// Values without memory yet.
    pub fn new(alloc: Global) -> WrittenValues {
        WrittenValues {
            date: String::new(alloc),
            range: String::new(alloc),
            source: String::new(alloc),
        }
    }
}

/// Writes the value of a range, bytes=first-last.
fn write_byte_range(out: &mut String, range: (u64, u64)) -> Result<(), AllocError>
    ensures { OnOk result (string_bytes out.new ≡ spec.byte_range range) }
{
    out.clear();
    out.push_str("bytes=")?;
    out.push_str(Buffer::new().format(range.0))?;
    out.push_str("-")?;
    out.push_str(Buffer::new().format(range.1))
}

/// Writes the range of a request, or nothing where it has none.
fn write_range(out: &mut String, own: &OwnHeaders<'_>) -> Result<(), AllocError>
    ensures { OnOk result (string_bytes out.new ≡ range_text own.now) }
{
    match own {
        OwnHeaders::Read {
            range: Some(range),
            ..
        }
        | OwnHeaders::RangeCopy(_, range) => write_byte_range(out, *range),
        _ => {
            out.clear();
            Ok(())
        }
    }
}

/// Writes the source of a copy: the bucket, `/` and the escaped key.
fn write_object(out: &mut String, bucket: &str, key: &str) -> Result<(), AllocError>
    ensures { OnOk result (string_bytes out.new ≡ spec.source_of bucket.now key.now) }
{
    out.clear();
    out.push_str(bucket)?;
    out.push_str("/")?;
    push_path(out, key)
}

/// Writes the source of a request, or nothing where it has none.
fn write_source(out: &mut String, own: &OwnHeaders<'_>) -> Result<(), AllocError>
    ensures { OnOk result (string_bytes out.new ≡ source_text own.now) }
{
    match own {
        OwnHeaders::Copy(source) | OwnHeaders::RangeCopy(source, _) => {
            write_object(out, source.bucket, source.key)
        }
        _ => {
            out.clear();
            Ok(())
        }
    }
}

/// Writes the values of a request's headers at a moment.
pub fn write_values(
    values: &mut WrittenValues,
    own: &OwnHeaders<'_>,
    moment: u64,
) -> Result<(), AllocError>
    requires { moment < 253402300800 }
    ensures date { OnOk result (string_bytes values.new.date ≡ basic_time moment) }
    ensures range { OnOk result (string_bytes values.new.range ≡ range_text own.now) }
    ensures source { OnOk result (string_bytes values.new.source ≡ source_text own.now) }
{
    values.date.clear();
    push_basic_time(&mut values.date, moment)?;
    write_range(&mut values.range, own)?;
    write_source(&mut values.source, own)
}

/// Adds a header.
fn push<'a>(headers: &mut Headers<'a>, name: &'a str, value: &'a str)
    requires { array_vec_len headers.old < 10 }
    ensures items { pairs_of headers.new.items ≡ pairs_of headers.old.items ++ (name.now, value.now) ∷ [] }
    ensures len { array_vec_len headers.new ≡ array_vec_len headers.old + 1 }
{
    headers.push(Header { name, value });
}

/// Adds the content type, where there is one.
fn push_content<'a>(headers: &mut Headers<'a>, own: &OwnHeaders<'a>)
    requires { array_vec_len headers.old < 10 }
    ensures items { pairs_of headers.new.items ≡ pairs_of headers.old.items ++ content_headers own.now }
    ensures len { array_vec_len headers.new ≤ array_vec_len headers.old + 1 }
{
    if let OwnHeaders::Upload {
        content: Some(content),
        ..
    } = own
    {
        push(headers, "content-type", *content);
    }
}

/// Adds the conditions of an upload, that there may be no object yet, and of a read, and the range of a read.
fn push_conditions<'a>(headers: &mut Headers<'a>, own: &OwnHeaders<'a>, range: &'a str)
    requires range { range.now ≡ range_text own.now }
    requires len { array_vec_len headers.old < 9 }
    ensures items { pairs_of headers.new.items ≡ pairs_of headers.old.items ++ condition_headers own.now }
    ensures len { array_vec_len headers.new ≤ array_vec_len headers.old + 2 }
{
    match own {
        OwnHeaders::Upload { fresh: true, .. } => push(headers, "if-none-match", "*"),
        OwnHeaders::Read { etag, range: None } => push(headers, "if-match", *etag),
        OwnHeaders::Read {
            etag,
            range: Some(_),
        } => {
            push(headers, "if-match", *etag);
            push(headers, "range", range);
        }
        _ => {}
    }
}

/// Adds the source of a copy, and the ETag that the source still has to have.
fn push_source<'a>(headers: &mut Headers<'a>, source: &Source<'a>, text: &'a str)
    requires text { text.now ≡ spec.source_of source.now.bucket.now source.now.key.now }
    requires len { array_vec_len headers.old < 9 }
    ensures items { pairs_of headers.new.items ≡ pairs_of headers.old.items ++ source_in source.now }
    ensures len { array_vec_len headers.new ≡ array_vec_len headers.old + 2 }
{
    push(headers, "x-amz-copy-source", text);
    push(headers, "x-amz-copy-source-if-match", source.etag);
}

/// Adds the range of a copy, where it has one.
fn push_copy_range<'a>(headers: &mut Headers<'a>, own: &OwnHeaders<'a>, range: &'a str)
    requires range { range.now ≡ range_text own.now }
    requires len { array_vec_len headers.old < 10 }
    ensures items { pairs_of headers.new.items ≡ pairs_of headers.old.items ++ copy_range_headers own.now }
    ensures len { array_vec_len headers.new ≤ array_vec_len headers.old + 1 }
{
    if let OwnHeaders::RangeCopy(_, _) = own {
        push(headers, "x-amz-copy-source-range", range);
    }
}

/// Adds the headers of a copy but its range.
fn push_copy<'a>(headers: &mut Headers<'a>, own: &OwnHeaders<'a>, source: &'a str)
    requires source { source.now ≡ source_text own.now }
    requires len { array_vec_len headers.old < 9 }
    ensures items { pairs_of headers.new.items ≡ pairs_of headers.old.items ++ copy_headers own.now }
    ensures len { array_vec_len headers.new ≤ array_vec_len headers.old + 2 }
{
    match own {
        OwnHeaders::Copy(object) | OwnHeaders::RangeCopy(object, _) => {
            push_source(headers, object, source)
        }
        _ => {}
    }
}

/// Adds the session token, where there is one.
fn push_token<'a>(headers: &mut Headers<'a>, token: Option<&'a str>)
    requires { array_vec_len headers.old < 10 }
    ensures { pairs_of headers.new.items
        ≡ pairs_of headers.old.items ++ optional (codes "x-amz-security-token") (option_copied token.entry) }
{
    if let Some(token) = token {
        push(headers, "x-amz-security-token", token);
    }
}

/// All headers that are signed, in the order of their names.
#[tactic(auto, using(crate::proofs::HeaderOrder::orders))]
pub fn signed_headers<'a>(values: &HeaderValues<'a>) -> Headers<'a>
    requires range { values.now.range.now ≡ range_text values.now.own }
    requires source { values.now.source.now ≡ source_text values.now.own }
    ensures { pairs_of result.items ≡ sort_pairs (own_in values.now.own ++ common_in values.now) }
{
    let mut headers = Headers::new();
    push_content(&mut headers, &values.own);
    push(&mut headers, "host", values.host);
    push_conditions(&mut headers, &values.own, values.range);
    push(&mut headers, "x-amz-content-sha256", values.payload_hash);
    push_copy(&mut headers, &values.own, values.source);
    push_copy_range(&mut headers, &values.own, values.range);
    push(&mut headers, "x-amz-date", values.date);
    push_token(&mut headers, values.token);
    headers
}
