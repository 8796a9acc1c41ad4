//! Presigned URLs of objects.
ghost use Rattle.std.specs.Prelude.{◌≡◌, ◌≢◌, ◌<◌, Err, IfErr, IfOk, Some, string_bytes};
ghost use Rattle.std.specs.Option.{ForSome};
ghost use Rattle.presigned_urls.specs.Parts.{request_with, url_with};
ghost use Rattle.presigned_urls.specs.Presigned as spec;
ghost use Rattle.s3_signing.specs.Paths.{object_path};
ghost use Rattle.s3_signing.specs.Signing.{encode_path, signature};

use crate::parameters::presigned_query;
use s3_model::{Endpoint, Keys, OutOfMemory, Text};
use s3_paths::S3Uri;
use s3_signing::{Header, SignedParts, canonical_text, key_at, push_object_path, signature_under};
use std::alloc::{AllocError, Global};

/// Why an object has no presigned URL. `Expires` has the seconds that were asked for.
#[derive(Clone, Copy, Debug)]
pub enum PresignFault {
    Expires(u64),
    Moment,
    Memory,
}

impl From<OutOfMemory> for PresignFault {
    ghost use Rattle.std.specs.Prelude.{◌≡◌};
    ghost use Rattle.presigned_urls.specs.declared.urls.PresignFault.TheVariants.{Memory};

    ghost from_gives = { λ _ fault. fault ≡ Memory };

    fn from(_: OutOfMemory) -> PresignFault {
        PresignFault::Memory
    }
}

/// The longest that a presigned URL may be valid, in seconds: seven days.
const LONGEST: u64 = 604_800;

/// The first moment of the year 10000, in seconds since 1970.
const YEAR_10000: u64 = 253_402_300_800;

/// The parts of a presigned URL, escaped.
#[derive(Drop)]
struct UrlParts {
    path: String,
    query: String,
    signature: String,
}

/// The path of an object, escaped.
fn path_of(alloc: Global, uri: &S3Uri) -> Result<String, AllocError>
    ensures { IfOk result (λ text. string_bytes text ≡ encode_path (object_path uri.now.bucket uri.now.key)) }
{
    let mut out = String::with_capacity(alloc, 128)?;
    push_object_path(&mut out, uri.bucket.as_str(), uri.key.as_str())?;
    Ok(out)
}

/// The canonical request: a GET whose only header is the host, and whose payload is not signed.
fn canonical(alloc: Global, host: &str, path: &str, query: &str) -> Result<String, AllocError>
    ensures { IfOk result (λ text. string_bytes text ≡ request_with host.now path.now query.now) }
{
    let headers = [Header {
        name: "host",
        value: host,
    }];
    canonical_text(
        alloc,
        &SignedParts {
            method: "GET",
            path,
            query,
            headers: &headers,
            payload_hash: "UNSIGNED-PAYLOAD",
        },
    )
}

/// The signature of a canonical request.
fn sign(alloc: Global, keys: &Keys, moment: u64, canonical: &str) -> Result<String, AllocError>
    requires { moment < 253402300800 }
    ensures { IfOk result (λ text. string_bytes text ≡ signature keys.now moment canonical.now) }
{
    let region = keys.region.as_str();
    let key = key_at(alloc, keys.secret.as_str(), moment, region)?;
    signature_under(alloc, &key, moment, region, canonical)
}

/// The parts of the URL of an object.
#[tactic(auto, unfolding(s3_signing::specs::Signing::canonical_request))]
fn parts_of(
    alloc: Global,
    uri: &S3Uri,
    endpoint: &Endpoint,
    keys: &Keys,
    moment: u64,
    expires: u64,
) -> Result<UrlParts, OutOfMemory>
    requires { moment < 253402300800 }
    ensures path { IfOk result (λ parts. string_bytes parts.path
        ≡ encode_path (object_path uri.now.bucket uri.now.key)) }
    ensures query { IfOk result (λ parts. string_bytes parts.query ≡ spec.presigned_query keys.now moment expires) }
    ensures signature { IfOk result (λ parts. string_bytes parts.signature
        ≡ signature keys.now moment (spec.presigned_request uri.now endpoint.now keys.now moment expires)) }
{
    let host = endpoint.written.as_str();
    let path = path_of(alloc, uri)?;
    let query = presigned_query(alloc, keys, moment, expires)?;
    let canonical = canonical(alloc, host, path.as_str(), query.as_str())?;
    let signature = sign(alloc, keys, moment, canonical.as_str())?;
    Ok(UrlParts {
        path,
        query,
        signature,
    })
}

/// The URL of its parts.
fn join(
    alloc: Global,
    host: &str,
    path: &str,
    query: &str,
    signature: &str,
) -> Result<Text, OutOfMemory>
    ensures { IfOk result (λ text. text ≡ url_with host.now path.now query.now signature.now) }
{
    Text::joined(
        alloc,
        &[
            "http://",
            host,
            path,
            "?",
            query,
            "&X-Amz-Signature=",
            signature,
        ],
    )
}

/// The URL of an object under which anyone may read it for some seconds, from a moment on.
///
/// `expires` is in seconds, 1 to 604,800 (seven days); the moment is in seconds since 1970, before the year 10000.
/// The first of the faults is answered (Amazon S3 API Reference, "Authenticating Requests: Using Query Parameters").
pub fn presign(
    alloc: Global,
    uri: &S3Uri,
    endpoint: &Endpoint,
    keys: &Keys,
    moment: u64,
    expires: u64,
) -> Result<Text, PresignFault>
    ensures url { IfOk result (λ url. url ≡ spec.presigned_url uri.now endpoint.now keys.now moment expires) }
    ensures refusal { ForSome (spec.presign_fault moment expires) (λ fault. result ≡ Err fault) }
    ensures fault { IfErr result (λ fault. fault ≢ PresignFault.Memory
        → spec.presign_fault moment expires ≡ Some fault) }
{
    if expires < 1 || expires > LONGEST {
        return Err(PresignFault::Expires(expires));
    }
    if moment >= YEAR_10000 {
        return Err(PresignFault::Moment);
    }
    let parts = parts_of(alloc, uri, endpoint, keys, moment, expires)?;
    let url = join(
        alloc,
        endpoint.written.as_str(),
        parts.path.as_str(),
        parts.query.as_str(),
        parts.signature.as_str(),
    )?;
    Ok(url)
}
