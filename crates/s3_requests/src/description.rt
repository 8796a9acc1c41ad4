//! What each of the twelve asks says as a request, before it is escaped and signed.
ghost use Rattle.std.specs.Prelude.{◌≡◌};
ghost use Rattle.std.specs.Option.{option_copied};
ghost use Rattle.s3_requests.specs.Descriptions.{
  body_in,
  has_body_in,
  own_in,
  path_in,
  query_in,
  request_in,
  source_in,
};
ghost use Rattle.s3_requests.specs.Requests.{copy_source, request_of};

use s3_model::{Ask, Text, Texts};

/// What stands in the path.
#[derive(Clone, Copy)]
pub enum Resource<'a> {
    Service,
    Bucket(&'a str),
    Object(&'a str, &'a str),
}

/// What stands in the query.
#[derive(Clone, Copy)]
pub enum Query<'a> {
    Empty,
    Uploads,
    Upload(&'a str),
    Part(u32, &'a str),
    Listing {
        prefix: &'a str,
        delimited: bool,
        token: Option<&'a str>,
    },
}

/// The object that is copied, and the ETag that it still has to have.
#[derive(Clone, Copy)]
pub struct Source<'a> {
    pub bucket: &'a str,
    pub key: &'a str,
    pub etag: &'a str,
}

/// The headers beside those of every request.
#[derive(Clone, Copy)]
pub enum OwnHeaders<'a> {
    Nothing,
    Upload {
        content: Option<&'a str>,
        fresh: bool,
    },
    Read {
        etag: &'a str,
        range: Option<(u64, u64)>,
    },
    Copy(Source<'a>),
    RangeCopy(Source<'a>, (u64, u64)),
}

/// The body: none; bytes that the caller has, or no bytes; or the document with these ETags.
#[derive(Clone, Copy)]
pub enum Body<'a> {
    Absent,
    Bytes,
    Document(&'a Texts),
}

/// A request, before it is escaped and signed.
#[derive(Clone, Copy)]
pub struct Description<'a> {
    pub method: &'static str,
    pub resource: Resource<'a>,
    pub query: Query<'a>,
    pub own_headers: OwnHeaders<'a>,
    pub body: Body<'a>,
}

/// Lends a text, where there is one.
pub fn lent(text: &Option<Text>) -> Option<&str>
    ensures { option_copied result ≡ text.now }
{
    match text {
        Some(text) => Some(text.as_str()),
        None => None,
    }
}

fn source_of<'a>(bucket: &'a Text, key: &'a Text, etag: &'a Text) -> Source<'a>
    ensures { source_in result ≡ copy_source bucket.now key.now etag.now }
{
    Source {
        bucket: bucket.as_str(),
        key: key.as_str(),
        etag: etag.as_str(),
    }
}

fn method_of(ask: &Ask) -> &'static str
    ensures { result.now ≡ (request_of ask.now).method }
{
    match ask {
        Ask::Head { .. } => "HEAD",
        Ask::Get { .. } | Ask::List { .. } | Ask::Buckets => "GET",
        Ask::Put { .. } | Ask::Copy { .. } | Ask::Part { .. } | Ask::PartCopy { .. } => "PUT",
        Ask::Create { .. } | Ask::Complete { .. } => "POST",
        Ask::Delete { .. } | Ask::Abort { .. } => "DELETE",
    }
}

fn resource_of(ask: &Ask) -> Resource<'_>
    ensures { path_in result ≡ (request_of ask.now).path }
{
    match ask {
        Ask::Head { bucket, key }
        | Ask::Get { bucket, key, .. }
        | Ask::Put { bucket, key, .. }
        | Ask::Copy { bucket, key, .. }
        | Ask::Delete { bucket, key }
        | Ask::Create { bucket, key, .. }
        | Ask::Part { bucket, key, .. }
        | Ask::PartCopy { bucket, key, .. }
        | Ask::Complete { bucket, key, .. }
        | Ask::Abort { bucket, key, .. } => Resource::Object(bucket.as_str(), key.as_str()),
        Ask::List { bucket, .. } => Resource::Bucket(bucket.as_str()),
        Ask::Buckets => Resource::Service,
    }
}

fn query_of(ask: &Ask) -> Query<'_>
    ensures { query_in result ≡ (request_of ask.now).query }
{
    match ask {
        Ask::Create { .. } => Query::Uploads,
        Ask::Part { upload, number, .. } | Ask::PartCopy { upload, number, .. } => {
            Query::Part(*number, upload.as_str())
        }
        Ask::Complete { upload, .. } | Ask::Abort { upload, .. } => Query::Upload(upload.as_str()),
        Ask::List {
            prefix,
            delimited,
            token,
            ..
        } => Query::Listing {
            prefix: prefix.as_str(),
            delimited: *delimited,
            token: lent(token),
        },
        _ => Query::Empty,
    }
}

fn upload_headers(content: Option<&str>, fresh: bool) -> OwnHeaders<'_>
    ensures { result ≡ OwnHeaders.Upload content.entry fresh }
{
    OwnHeaders::Upload { content, fresh }
}

fn own_headers_of(ask: &Ask) -> OwnHeaders<'_>
    ensures { own_in result ≡ (request_of ask.now).own_headers }
{
    match ask {
        Ask::Get { etag, range, .. } => OwnHeaders::Read {
            etag: etag.as_str(),
            range: *range,
        },
        Ask::Put { content, fresh, .. } => upload_headers(lent(content), *fresh),
        Ask::Create { content, .. } => upload_headers(lent(content), false),
        Ask::Complete { fresh, .. } => upload_headers(None, *fresh),
        Ask::Copy {
            from_bucket,
            from_key,
            etag,
            ..
        } => OwnHeaders::Copy(source_of(from_bucket, from_key, etag)),
        Ask::PartCopy {
            from_bucket,
            from_key,
            etag,
            range,
            ..
        } => OwnHeaders::RangeCopy(source_of(from_bucket, from_key, etag), *range),
        _ => OwnHeaders::Nothing,
    }
}

fn body_of(ask: &Ask) -> Body<'_>
    ensures has { has_body_in result ≡ (request_of ask.now).has_body }
    ensures body { body_in result ≡ (request_of ask.now).body }
{
    match ask {
        Ask::Put { .. }
        | Ask::Copy { .. }
        | Ask::Create { .. }
        | Ask::Part { .. }
        | Ask::PartCopy { .. } => Body::Bytes,
        Ask::Complete { etags, .. } => Body::Document(etags),
        _ => Body::Absent,
    }
}

/// The request of an ask.
pub fn describe(ask: &Ask) -> Description<'_>
    ensures { request_in result ≡ request_of ask.now }
{
    Description {
        method: method_of(ask),
        resource: resource_of(ask),
        query: query_of(ask),
        own_headers: own_headers_of(ask),
        body: body_of(ask),
    }
}
