//! Canonical requests.
ghost use Rattle.std.specs.Prelude.{◌≡◌, ◌++◌, OnOk, IfOk, codes, string_bytes};
ghost use Rattle.s3_signing.specs.Signing as spec;
ghost use Rattle.s3_signing.specs.Headers.{canonical_with, header_block, pairs_of, target_lines};

use crate::escapes::push_path;
use crate::headers::{Header, lend, push_canonical_headers, push_signed_names};
use crate::query::canonical_query;
use s3_model::{OutOfMemory, Pairs, Text};
use std::alloc::{AllocError, Global};

/// The parts of a request that are signed: the path and the query are escaped.
#[derive(Clone, Copy)]
pub struct SignedParts<'a> {
    pub method: &'a str,
    pub path: &'a str,
    pub query: &'a str,
    pub headers: &'a [Header<'a>],
    pub payload_hash: &'a str,
}

fn push_line(out: &mut String, text: &str) -> Result<(), AllocError>
    ensures { OnOk result (string_bytes out.new ≡ string_bytes out.old ++ text.now ++ codes "\n") }
{
    out.push_str(text)?;
    out.push_str("\n")
}

/// Adds the method, the path and the query, each with a line feed.
fn push_target_lines(out: &mut String, parts: &SignedParts<'_>) -> Result<(), AllocError>
    ensures { OnOk result (string_bytes out.new ≡ string_bytes out.old ++ target_lines parts.now) }
{
    push_line(out, parts.method)?;
    push_line(out, parts.path)?;
    push_line(out, parts.query)
}

/// Adds the headers and their names, each with a line feed.
fn push_header_block(out: &mut String, headers: &[Header<'_>]) -> Result<(), AllocError>
    ensures { OnOk result (string_bytes out.new ≡ string_bytes out.old ++ header_block (pairs_of headers.now)) }
{
    push_canonical_headers(out, headers)?;
    out.push_str("\n")?;
    push_signed_names(out, headers)?;
    out.push_str("\n")
}

/// Writes the text that is hashed for a signature, in place of what stands there.
#[tactic(auto, using(crate::proofs::JoinLemmas::lines_joined))]
pub fn write_canonical(out: &mut String, parts: &SignedParts<'_>) -> Result<(), AllocError>
    ensures { OnOk result (string_bytes out.new ≡ canonical_with parts.now) }
{
    out.clear();
    push_target_lines(out, parts)?;
    push_header_block(out, parts.headers)?;
    out.push_str(parts.payload_hash)
}

/// The text that is hashed for a signature.
pub fn canonical_text(alloc: Global, parts: &SignedParts<'_>) -> Result<String, AllocError>
    ensures { IfOk result (λ text. string_bytes text ≡ canonical_with parts.now) }
{
    let mut out = String::with_capacity(alloc, 512)?;
    write_canonical(&mut out, parts)?;
    Ok(out)
}

#[tactic(auto, unfolding(crate::specs::Signing::canonical_request))]
fn signed_text(
    alloc: Global,
    method: &str,
    path: &str,
    query: &Pairs,
    headers: &Pairs,
    payload_hash: &str,
) -> Result<String, AllocError>
    ensures { IfOk result (λ text. string_bytes text
        ≡ spec.canonical_request method.now path.now query.now.items headers.now.items payload_hash.now) }
{
    let mut escaped = String::with_capacity(alloc, path.len())?;
    push_path(&mut escaped, path)?;
    let query = canonical_query(alloc, query)?;
    let headers = lend(alloc, headers)?;
    canonical_text(
        alloc,
        &SignedParts {
            method,
            path: escaped.as_str(),
            query: query.as_str(),
            headers: &headers,
            payload_hash,
        },
    )
}

/// The canonical request of Signature Version 4, from a path and a query that are not yet escaped.
///
/// The query is sorted here. Header values lose outer spaces, and each run of spaces inside becomes one space.
pub fn canonical_request(
    alloc: Global,
    method: &str,
    path: &str,
    query: &Pairs,
    headers: &Pairs,
    payload_hash: &str,
) -> Result<Text, OutOfMemory>
    requires { spec.HasSortedNames headers.now.items }
    ensures { IfOk result (λ text. text
        ≡ spec.canonical_request method.now path.now query.now.items headers.now.items payload_hash.now) }
{
    let text = signed_text(alloc, method, path, query, headers, payload_hash)?;
    Ok(Text::from(text))
}
