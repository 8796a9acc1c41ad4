//! The head of a request: the request line, the headers with the signature, and an empty line.
ghost use Rattle.std.specs.Prelude.{◌≡◌, ◌++◌, ◌<◌, [], OnOk, codes, string_bytes};
ghost use Rattle.std.specs.List.{flat_map};
ghost use Rattle.s3_requests.specs.Requests as spec;
ghost use Rattle.s3_requests.specs.Descriptions.{has_body_in, path_in, query_in, request_in};
ghost use Rattle.s3_signing.specs.Headers.{pairs_of};
ghost use Rattle.s3_requests.specs.Keeping.{IsKey};
ghost use Rattle.s3_signing.specs.Signing.{canonical_query, canonical_request, encode_path, signature};

use crate::description::{Body, Description, describe, lent};
use crate::lines::{push_header_line, push_header_lines};
use crate::own::{HeaderValues, WrittenValues, signed_headers, write_values};
use crate::target::{push_resource, push_signed_query, push_target_query};
use itoa::Buffer;
use s3_model::{Ask, Endpoint, Keys};
use s3_signing::{
    Header, SignedParts, push_credential, push_signature, push_signed_names, write_canonical,
};
use std::alloc::{AllocError, Global};
use std::marker::Model;
use std::mem;

/// What a request is signed with: the keys, a moment in seconds since 1970, and the signing key of its date.
#[derive(Clone, Copy)]
pub struct Key<'a> {
    pub keys: &'a Keys,
    pub moment: u64,
    pub key: &'a [u8; 32],
}

/// The pieces of a head. They keep their memory from one head to the next.
#[derive(Drop)]
struct Pieces {
    path: String,
    query: String,
    canonical: String,
    to_sign: String,
}

/// Adds the method and the escaped path.
#[tactic(auto, unfolding(crate::specs::Requests::method_and_path))]
fn push_method_and_path(
    out: &mut String,
    request: &Description<'_>,
    path: &str,
) -> Result<(), AllocError>
    requires { path.now ≡ encode_path (path_in request.now.resource) }
    ensures { OnOk result (string_bytes out.new
        ≡ string_bytes out.old ++ spec.method_and_path (request_in request.now)) }
{
    out.push_str(request.method)?;
    out.push_str(" ")?;
    out.push_str(path)
}

/// Adds the request line.
#[tactic(auto, unfolding(crate::specs::Requests::request_line))]
fn push_request_line(
    out: &mut String,
    request: &Description<'_>,
    path: &str,
    query: &str,
) -> Result<(), AllocError>
    requires path { path.now ≡ encode_path (path_in request.now.resource) }
    requires query { query.now ≡ canonical_query (query_in request.now.query) }
    ensures { OnOk result (string_bytes out.new ≡ string_bytes out.old ++ spec.request_line (request_in request.now)) }
{
    push_method_and_path(out, request, path)?;
    push_target_query(out, request.query, query)?;
    out.push_str(" HTTP/1.1\r\n")
}

/// Adds the content length, where the request has a body.
fn push_length_line(out: &mut String, body: Body<'_>, length: u64) -> Result<(), AllocError>
    ensures { OnOk result (string_bytes out.new
        ≡ string_bytes out.old ++ spec.length_line (has_body_in body.entry) length) }
{
    match body {
        Body::Absent => Ok(()),
        Body::Bytes | Body::Document(_) => {
            push_header_line(out, "content-length", Buffer::new().format(length))
        }
    }
}

/// Adds the lines of the headers, and the content length behind them.
fn push_lines(
    out: &mut String,
    headers: &[Header<'_>],
    body: Body<'_>,
    length: u64,
) -> Result<(), AllocError>
    ensures { OnOk result (string_bytes out.new
        ≡ string_bytes out.old
        ++ (flat_map spec.header_line (pairs_of headers.now) ++ spec.length_line (has_body_in body.entry) length)) }
{
    push_header_lines(out, headers)?;
    push_length_line(out, body, length)
}

/// Adds the signature of a canonical request. What is signed is written in `room`.
fn push_signature_by(
    out: &mut String,
    room: &mut String,
    key: &Key<'_>,
    canonical: &str,
) -> Result<(), AllocError>
    requires moment { key.now.moment < 253402300800 }
    requires key { IsKey key.now }
    ensures { OnOk result (string_bytes out.new
        ≡ string_bytes out.old ++ signature key.now.keys.now key.now.moment canonical.now) }
{
    push_signature(
        out,
        room,
        key.key,
        key.moment,
        key.keys.region.as_str(),
        canonical,
    )
}

/// Adds the value of the authorization header, for a canonical request. What is signed is written in `room`.
#[tactic(auto, unfolding(crate::specs::Requests::authorization))]
fn push_authorization(
    out: &mut String,
    room: &mut String,
    key: &Key<'_>,
    headers: &[Header<'_>],
    canonical: &str,
) -> Result<(), AllocError>
    requires moment { key.now.moment < 253402300800 }
    requires key { IsKey key.now }
    ensures { OnOk result (string_bytes out.new ≡ string_bytes out.old
        ++ spec.authorization key.now.keys.now key.now.moment (pairs_of headers.now)
        (signature key.now.keys.now key.now.moment canonical.now)) }
{
    out.push_str("AWS4-HMAC-SHA256 Credential=")?;
    push_credential(out, key.keys, key.moment)?;
    out.push_str(", SignedHeaders=")?;
    push_signed_names(out, headers)?;
    out.push_str(", Signature=")?;
    push_signature_by(out, room, key, canonical)
}

/// Adds the authorization header.
fn push_authorization_line(
    out: &mut String,
    room: &mut String,
    key: &Key<'_>,
    headers: &[Header<'_>],
    canonical: &str,
) -> Result<(), AllocError>
    requires moment { key.now.moment < 253402300800 }
    requires key { IsKey key.now }
    ensures { OnOk result (string_bytes out.new ≡ string_bytes out.old
        ++ spec.header_line (
          codes "authorization",
          spec.authorization key.now.keys.now key.now.moment
              (pairs_of headers.now) (signature key.now.keys.now key.now.moment canonical.now),
        )) }
{
    out.push_str("authorization: ")?;
    push_authorization(out, room, key, headers, canonical)?;
    out.push_str("\r\n")
}

/// Writes the canonical request with these headers.
#[tactic(auto, unfolding(s3_signing::specs::Signing::canonical_request))]
fn write_canonical_request(
    out: &mut String,
    request: &Description<'_>,
    path: &str,
    query: &str,
    headers: &[Header<'_>],
    payload_hash: &str,
) -> Result<(), AllocError>
    requires path { path.now ≡ encode_path (path_in request.now.resource) }
    requires query { query.now ≡ canonical_query (query_in request.now.query) }
    ensures { OnOk result (string_bytes out.new
        ≡ canonical_request request.now.method.now (path_in request.now.resource) (query_in request.now.query)
        (pairs_of headers.now) payload_hash.now) }
{
    write_canonical(
        out,
        &SignedParts {
            method: request.method,
            path,
            query,
            headers,
            payload_hash,
        },
    )
}

/// Writes the path, the query and the canonical request with these headers.
#[tactic(auto, unfolding(crate::specs::Requests::signature_of))]
fn write_pieces(
    pieces: &mut Pieces,
    request: &Description<'_>,
    headers: &[Header<'_>],
    payload_hash: &str,
) -> Result<(), AllocError>
    ensures path { OnOk result (string_bytes pieces.new.path ≡ encode_path (path_in request.now.resource)) }
    ensures query { OnOk result (string_bytes pieces.new.query ≡ canonical_query (query_in request.now.query)) }
    ensures canonical { OnOk result (string_bytes pieces.new.canonical
        ≡ canonical_request request.now.method.now (path_in request.now.resource) (query_in request.now.query)
        (pairs_of headers.now) payload_hash.now) }
{
    pieces.path.clear();
    push_resource(&mut pieces.path, request.resource)?;
    pieces.query.clear();
    push_signed_query(&mut pieces.query, request.query)?;
    write_canonical_request(
        &mut pieces.canonical,
        request,
        pieces.path.as_str(),
        pieces.query.as_str(),
        headers,
        payload_hash,
    )
}

/// Writes the head of a request with these headers.
#[tactic(auto, unfolding(crate::specs::Requests::head_with, crate::specs::Requests::signature_of))]
fn write_head_with(
    out: &mut String,
    pieces: &mut Pieces,
    request: &Description<'_>,
    key: &Key<'_>,
    headers: &[Header<'_>],
    payload_hash: &str,
    length: u64,
) -> Result<(), AllocError>
    requires moment { key.now.moment < 253402300800 }
    requires key { IsKey key.now }
    ensures { OnOk result (string_bytes out.new
        ≡ spec.head_with (request_in request.now) (pairs_of headers.now) key.now.keys.now key.now.moment
        payload_hash.now length) }
{
    write_pieces(pieces, request, headers, payload_hash)?;
    out.clear();
    push_request_line(out, request, pieces.path.as_str(), pieces.query.as_str())?;
    push_lines(out, headers, request.body, length)?;
    push_authorization_line(
        out,
        &mut pieces.to_sign,
        key,
        headers,
        pieces.canonical.as_str(),
    )?;
    out.push_str("\r\n")
}

/// The place in which heads are written. It keeps its memory from one head to the next. Contracts see the head that was
/// written last.
#[derive(Drop)]
pub struct HeadRoom {
    written: WrittenValues,
    pieces: Pieces,
    head: String,
}

impl Model for HeadRoom {
    ghost use Rattle.std.specs.Prelude.{List, ℕ, string_bytes};

    ghost Value = { List ℕ };

    ghost view = { λ r. string_bytes r.head };
}

impl HeadRoom {
    /// A place without memory and without a head yet.
    pub fn new(alloc: Global) -> HeadRoom
        ensures { result ≡ [] }
    {
        HeadRoom {
            written: WrittenValues::new(alloc),
            pieces: Pieces {
                path: String::new(alloc),
                query: String::new(alloc),
                canonical: String::new(alloc),
                to_sign: String::new(alloc),
            },
            head: String::new(alloc),
        }
    }

    /// The head that was written last.
    pub fn as_str(&self) -> &str
        ensures { result.now ≡ self.now }
    {
        self.head.as_str()
    }

    /// The head that was written last, and nothing else.
    pub(crate) fn into_string(self) -> String
        ensures { string_bytes result ≡ self }
    {
        let HeadRoom {
            written,
            pieces,
            head,
        } = self;
        mem::drop(written);
        mem::drop(pieces);
        head
    }

    /// Writes the head of a request, under the signing key of the moment's date.
    pub(crate) fn write(
        &mut self,
        alloc: Global,
        ask: &Ask,
        endpoint: &Endpoint,
        key: &Key<'_>,
        payload_hash: &str,
        length: u64,
    ) -> Result<(), AllocError>
        requires moment { key.now.moment < 253402300800 }
        requires key { IsKey key.now }
        ensures { OnOk result (self.new
            ≡ spec.request_head ask.now endpoint.now key.now.keys.now key.now.moment payload_hash.now length) }
    {
        let mut written = mem::replace(&mut self.written, WrittenValues::new(alloc));
        match self.write_with(&mut written, ask, endpoint, key, payload_hash, length) {
            Ok(()) => {
                self.written = written;
                Ok(())
            }
            Err(e) => {
                mem::drop(written);
                Err(e)
            }
        }
    }

    /// Writes the head of a request. The values that are made for it are written in a place of their own.
    #[tactic(auto, unfolding(crate::specs::Requests::signed_headers))]
    fn write_with(
        &mut self,
        written: &mut WrittenValues,
        ask: &Ask,
        endpoint: &Endpoint,
        key: &Key<'_>,
        payload_hash: &str,
        length: u64,
    ) -> Result<(), AllocError>
        requires moment { key.now.moment < 253402300800 }
        requires key { IsKey key.now }
        ensures { OnOk result (self.new
            ≡ spec.request_head ask.now endpoint.now key.now.keys.now key.now.moment payload_hash.now length) }
    {
        let request = describe(ask);
        write_values(written, &request.own_headers, key.moment)?;
        let headers = signed_headers(&HeaderValues {
            own: request.own_headers,
            host: endpoint.written.as_str(),
            payload_hash,
            date: written.date.as_str(),
            range: written.range.as_str(),
            source: written.source.as_str(),
            token: lent(&key.keys.token),
        });
        write_head_with(
            &mut self.head,
            &mut self.pieces,
            &request,
            key,
            headers.as_slice(),
            payload_hash,
            length,
        )
    }
}
