//! The query of a presigned URL, without the signature.
ghost use Rattle.std.specs.Prelude.{◌≡◌, ◌<◌, ◌++◌, OnOk, IfOk, string_bytes};
ghost use Rattle.std.specs.Option.{option_copied};
ghost use Rattle.presigned_urls.specs.Parts.{first_parameters, token_parameter};
ghost use Rattle.presigned_urls.specs.Presigned as spec;
ghost use Rattle.s3_signing.specs.Signing.{credential, encode_query};
ghost use Rattle.s3_signing.specs.Times.{basic_time};

use itoa::Buffer;
use s3_model::{Keys, Text};
use s3_signing::{push_basic_time, push_credential, push_query};
use std::alloc::{AllocError, Global};

/// Adds a parameter, its value escaped.
#[tactic(auto, using(s3_signing::proofs::JoinLemmas::pieces))]
fn push_parameter(out: &mut String, name: &str, value: &str) -> Result<(), AllocError>
    ensures { OnOk result (string_bytes out.new ≡ string_bytes out.old ++ (name.now ++ encode_query value.now)) }
{
    out.push_str(name)?;
    push_query(out, value)
}

/// The id of the keys and the scope.
fn credential_text(alloc: Global, keys: &Keys, moment: u64) -> Result<String, AllocError>
    requires { moment < 253402300800 }
    ensures { IfOk result (λ text. string_bytes text ≡ credential keys.now moment) }
{
    let mut out = String::with_capacity(alloc, 96)?;
    push_credential(&mut out, keys, moment)?;
    Ok(out)
}

/// The moment as YYYYMMDDTHHMMSSZ.
fn basic_time_text(alloc: Global, moment: u64) -> Result<String, AllocError>
    requires { moment < 253402300800 }
    ensures { IfOk result (λ text. string_bytes text ≡ basic_time moment) }
{
    let mut out = String::with_capacity(alloc, 16)?;
    push_basic_time(&mut out, moment)?;
    Ok(out)
}

/// Adds the parameters before the token.
fn push_first(
    out: &mut String,
    credential: &str,
    date: &str,
    expires: &str,
) -> Result<(), AllocError>
    ensures { OnOk result (string_bytes out.new
        ≡ string_bytes out.old ++ first_parameters credential.now date.now expires.now) }
{
    out.push_str("X-Amz-Algorithm=AWS4-HMAC-SHA256")?;
    push_parameter(out, "&X-Amz-Credential=", credential)?;
    push_parameter(out, "&X-Amz-Date=", date)?;
    push_parameter(out, "&X-Amz-Expires=", expires)
}

/// Adds the token, where there is one.
fn push_token(out: &mut String, token: &Option<Text>) -> Result<(), AllocError>
    ensures { OnOk result (string_bytes out.new ≡ string_bytes out.old ++ token_parameter token.now) }
{
    match token {
        Some(token) => push_parameter(out, "&X-Amz-Security-Token=", token.as_str()),
        None => Ok(()),
    }
}

/// The query: the names stand in ascending order.
pub fn presigned_query(
    alloc: Global,
    keys: &Keys,
    moment: u64,
    expires: u64,
) -> Result<String, AllocError>
    requires { moment < 253402300800 }
    ensures { IfOk result (λ text. string_bytes text ≡ spec.presigned_query keys.now moment expires) }
{
    let credential = credential_text(alloc, keys, moment)?;
    let date = basic_time_text(alloc, moment)?;
    let mut out = String::with_capacity(alloc, 256)?;
    push_first(
        &mut out,
        credential.as_str(),
        date.as_str(),
        Buffer::new().format(expires),
    )?;
    push_token(&mut out, &keys.token)?;
    out.push_str("&X-Amz-SignedHeaders=host")?;
    Ok(out)
}
