//! What requests send behind their heads.

ghost use Rattle.std.specs.Prelude.{◌≡◌, [], IfOk};
ghost use Rattle.s3_signing.specs.Signing.{IsHashOf, hex_sha256};
ghost use Rattle.attempts.specs.Payloads.{body_of, content_of};

use s3_model::{Ask, Bytes, OutOfMemory};
use s3_requests::{HexHash, body_text, payload_hash};
use std::alloc::Global;
use std::marker::Model;

/// Bytes that the caller lends, or a document that was made.
#[derive(Drop)]
pub enum Content<'a> {
    Lent(&'a [u8]),
    Document(Bytes),
}

/// The body of a request with its hash, which is made once, however often the request is sent. Contracts see the bytes.
#[derive(Drop)]
pub struct Payload<'a> {
    content: Content<'a>,
    hash: HexHash,
}

impl<'a> Model for Payload<'a> {
    ghost use Rattle.std.specs.Prelude.{◌≡◌, List, ℕ};
    ghost use Rattle.s3_signing.specs.Signing.{hex_sha256};
    ghost use Rattle.attempts.specs.Payloads.{content_of};

    ghost Value = { List ℕ };

    ghost view = { λ p. content_of p.content };

    ghost invariant = { λ p. p.hash ≡ hex_sha256 (content_of p.content) };
}

impl Content<'_> {
    fn as_slice(&self) -> &[u8]
        ensures { result.now ≡ content_of self.now }
    {
        match self {
            Content::Lent(bytes) => bytes,
            Content::Document(bytes) => bytes.as_slice(),
        }
    }
}

/// The hash of these bytes, which is made where it is not known.
fn hash_of(bytes: &[u8], known: &mut Option<HexHash>) -> HexHash
    requires { IsHashOf known.old bytes.now }
    ensures hash { result ≡ hex_sha256 bytes.now }
    ensures known { IsHashOf known.new bytes.now }
{
    match known {
        Some(hash) => *hash,
        None => {
            let hash = payload_hash(bytes);
            *known = Some(hash);
            hash
        }
    }
}

impl<'a> Payload<'a> {
    /// What a request sends: these bytes where it is a Put or a Part, the document of a Complete, else nothing.
    ///
    /// The hash of the bytes is made where it is not known, and is known then; that of a document is made each time.
    pub fn of(
        alloc: Global,
        ask: &Ask,
        bytes: &'a [u8],
        known: &mut Option<HexHash>,
    ) -> Result<Payload<'a>, OutOfMemory>
        requires { IsHashOf known.old bytes.now }
        ensures payload { IfOk result (λ payload. payload ≡ body_of ask.now bytes.now) }
        ensures known { IsHashOf known.new bytes.now }
    {
        match ask {
            Ask::Put { .. } | Ask::Part { .. } => Ok(Payload {
                content: Content::Lent(bytes),
                hash: hash_of(bytes, known),
            }),
            _ => {
                let document = body_text(alloc, ask)?;
                let hash = payload_hash(document.as_slice());
                Ok(Payload {
                    content: Content::Document(document),
                    hash,
                })
            }
        }
    }

    /// What a request sends that has no body.
    pub fn empty() -> Payload<'a>
        ensures { result ≡ [] }
    {
        Payload {
            content: Content::Lent(&[]),
            hash: payload_hash(&[]),
        }
    }

    /// The bytes, lent.
    pub fn as_slice(&self) -> &[u8]
        ensures { result.now ≡ self.now }
    {
        self.content.as_slice()
    }

    /// The SHA-256 of the bytes in 64 lower-case hexadecimal digits.
    pub fn hash(&self) -> &str
        ensures { result.now ≡ hex_sha256 self.now }
    {
        self.hash.as_str()
    }
}
