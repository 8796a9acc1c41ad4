//! Signatures.
ghost use Rattle.std.specs.Prelude.{◌≡◌, ◌++◌, ◌<◌, OnOk, IfOk, string_bytes};
ghost use Rattle.hex.specs.Hex.{encode_lower};
ghost use Rattle.s3_signing.specs.Signing as spec;
ghost use Rattle.s3_signing.specs.Times.{basic_date};

use crate::digits::HexHash;
use crate::hmac::hmac_sha256;
use crate::times::{push_basic_date, push_basic_time};
use s3_model::{Keys, OutOfMemory, Text};
use sha2::{Digest, Sha256};
use std::alloc::{AllocError, Global};

/// Adds a hash in 64 lower-case hexadecimal digits.
fn push_hex(out: &mut String, hash: [u8; 32]) -> Result<(), AllocError>
    ensures { OnOk result (string_bytes out.new ≡ string_bytes out.old ++ encode_lower hash) }
{
    out.push_str(HexHash::of(hash).as_str())
}

/// The payload hash of a body: its SHA-256 in 64 lower-case hexadecimal digits.
#[tactic(auto, unfolding(crate::specs::Signing::hex_sha256))]
pub fn payload_hash(body: &[u8]) -> HexHash
    ensures { result ≡ spec.hex_sha256 body.now }
{
    HexHash::of(Sha256::digest(body))
}

/// Adds date/region/s3/aws4_request.
pub fn push_scope(out: &mut String, moment: u64, region: &str) -> Result<(), AllocError>
    requires { moment < 253402300800 }
    ensures { OnOk result (string_bytes out.new
        ≡ string_bytes out.old ++ spec.credential_scope (basic_date moment) region.now) }
{
    push_basic_date(out, moment)?;
    out.push_str("/")?;
    out.push_str(region)?;
    out.push_str("/s3/aws4_request")
}

/// Adds the credential: the id of the keys and the scope.
#[tactic(auto, unfolding(crate::specs::Signing::credential))]
pub fn push_credential(out: &mut String, keys: &Keys, moment: u64) -> Result<(), AllocError>
    requires { moment < 253402300800 }
    ensures { OnOk result (string_bytes out.new ≡ string_bytes out.old ++ spec.credential keys.now moment) }
{
    out.push_str(keys.id.as_str())?;
    out.push_str("/")?;
    push_scope(out, moment, keys.region.as_str())
}

/// Writes the string to sign, in place of what stands there.
#[tactic(auto, unfolding(crate::specs::Signing::string_to_sign, crate::specs::Signing::hex_sha256))]
fn write_text_to_sign(
    out: &mut String,
    moment: u64,
    region: &str,
    canonical: &str,
) -> Result<(), AllocError>
    requires { moment < 253402300800 }
    ensures { OnOk result (string_bytes out.new ≡ spec.string_to_sign moment region.now canonical.now) }
{
    out.clear();
    out.push_str("AWS4-HMAC-SHA256\n")?;
    push_basic_time(out, moment)?;
    out.push_str("\n")?;
    push_scope(out, moment, region)?;
    out.push_str("\n")?;
    push_hex(out, Sha256::digest(canonical.as_bytes()))
}

/// The string to sign of a canonical request. The moment is in seconds since 1970, before the year 10000.
pub fn string_to_sign(
    alloc: Global,
    moment: u64,
    region: &str,
    canonical: &str,
) -> Result<Text, OutOfMemory>
    requires { moment < 253402300800 }
    ensures { IfOk result (λ text. text ≡ spec.string_to_sign moment region.now canonical.now) }
{
    let mut out = String::with_capacity(alloc, 192)?;
    match write_text_to_sign(&mut out, moment, region, canonical) {
        Ok(()) => Ok(Text::from(out)),
        Err(AllocError) => Err(OutOfMemory),
    }
}

#[tactic(auto, unfolding(crate::specs::Signing::signing_key))]
fn key_of(alloc: Global, secret: &str, date: &str, region: &str) -> Result<[u8; 32], AllocError>
    ensures { IfOk result (λ key. key ≡ spec.signing_key secret.now date.now region.now) }
{
    let mut start = String::with_capacity(alloc, 64)?;
    start.push_str("AWS4")?;
    start.push_str(secret)?;
    let of_date = hmac_sha256(start.as_bytes(), date.as_bytes());
    let of_region = hmac_sha256(&of_date, region.as_bytes());
    let of_service = hmac_sha256(&of_region, b"s3");
    Ok(hmac_sha256(&of_service, b"aws4_request"))
}

/// The signing key of a date, YYYYMMDD, and a region.
pub fn signing_key(
    alloc: Global,
    secret: &str,
    date: &str,
    region: &str,
) -> Result<[u8; 32], OutOfMemory>
    ensures { IfOk result (λ key. key ≡ spec.signing_key secret.now date.now region.now) }
{
    Ok(key_of(alloc, secret, date, region)?)
}

/// The signing key of a moment's date and a region.
pub fn key_at(
    alloc: Global,
    secret: &str,
    moment: u64,
    region: &str,
) -> Result<[u8; 32], AllocError>
    requires { moment < 253402300800 }
    ensures { IfOk result (λ key. key ≡ spec.signing_key secret.now (basic_date moment) region.now) }
{
    let mut date = String::with_capacity(alloc, 8)?;
    push_basic_date(&mut date, moment)?;
    key_of(alloc, secret, date.as_str(), region)
}

/// Adds the signature of a canonical request under a signing key. What is signed is written in `room`, in place of what
/// stands there.
#[tactic(auto, unfolding(crate::specs::Signing::signature_under))]
pub fn push_signature(
    out: &mut String,
    room: &mut String,
    key: &[u8; 32],
    moment: u64,
    region: &str,
    canonical: &str,
) -> Result<(), AllocError>
    requires { moment < 253402300800 }
    ensures { OnOk result (string_bytes out.new
        ≡ string_bytes out.old ++ spec.signature_under key.now moment region.now canonical.now) }
{
    write_text_to_sign(room, moment, region, canonical)?;
    push_hex(out, hmac_sha256(key, room.as_bytes()))
}

/// The signature of a canonical request under a signing key.
pub fn signature_under(
    alloc: Global,
    key: &[u8; 32],
    moment: u64,
    region: &str,
    canonical: &str,
) -> Result<String, AllocError>
    requires { moment < 253402300800 }
    ensures { IfOk result (λ text. string_bytes text ≡ spec.signature_under key.now moment region.now canonical.now) }
{
    let mut room = String::with_capacity(alloc, 192)?;
    let mut out = String::with_capacity(alloc, 64)?;
    push_signature(&mut out, &mut room, key, moment, region, canonical)?;
    Ok(out)
}

/// The signature of a canonical request in 64 lower-case hexadecimal digits.
/// The moment is in seconds since 1970, before the year 10000.
pub fn signature(
    alloc: Global,
    keys: &Keys,
    moment: u64,
    canonical: &str,
) -> Result<Text, OutOfMemory>
    requires { moment < 253402300800 }
    ensures { IfOk result (λ text. text ≡ spec.signature keys.now moment canonical.now) }
{
    let region = keys.region.as_str();
    let key = key_at(alloc, keys.secret.as_str(), moment, region)?;
    match signature_under(alloc, &key, moment, region, canonical) {
        Ok(text) => Ok(Text::from(text)),
        Err(AllocError) => Err(OutOfMemory),
    }
}
