//! Queries as they are signed.
ghost use Rattle.std.specs.Prelude.{◌≡◌, ◌++◌, OnOk, IfOk, codes, map, string_bytes};
ghost use Rattle.std.specs.List.Sorted.{IsPermutation};
ghost use Rattle.s3_signing.specs.Signing as spec;
ghost use Rattle.s3_signing.specs.Headers.{text_pairs, next_piece};
ghost use Rattle.s3_signing.specs.Pairs.{sort_pairs};

use crate::escapes::push_query;
use crate::headers::push_piece;
use s3_model::{Pairs, Text};
use std::alloc::{AllocError, Global};

fn escaped(alloc: Global, text: &str) -> Result<String, AllocError>
    ensures { IfOk result (λ out. string_bytes out ≡ spec.encode_query text.now) }
{
    let mut out = String::with_capacity(alloc, text.len())?;
    push_query(&mut out, text)?;
    Ok(out)
}

fn escaped_pair(alloc: Global, pair: &(Text, Text)) -> Result<(String, String), AllocError>
    ensures { IfOk result (λ out. (string_bytes out.0, string_bytes out.1) ≡ spec.encode_pair pair.now) }
{
    let name = escaped(alloc, pair.0.as_str())?;
    let value = escaped(alloc, pair.1.as_str())?;
    Ok((name, value))
}

/// The pairs, escaped.
fn escape_all(alloc: Global, query: &Pairs) -> Result<Vec<(String, String)>, AllocError>
    ensures { IfOk result (λ out. text_pairs out.items ≡ map spec.encode_pair query.now.items) }
{
    let mut out = Vec::with_capacity(alloc, query.len())?;
    for pair in query.as_slice() {
        out.push_reserved(escaped_pair(alloc, pair)?);
    }
    Ok(out)
}

/// Sorts pairs by name and then by value.
fn sort(pairs: &mut Vec<(String, String)>) -> Result<(), AllocError>
    ensures { OnOk result (text_pairs pairs.new.items ≡ sort_pairs (text_pairs pairs.old.items)) }
{
    pairs.sort()
}

/// The pairs, escaped, in the order in which they are signed.
fn escaped_in_order(alloc: Global, query: &Pairs) -> Result<Vec<(String, String)>, AllocError>
    ensures { IfOk result (λ out. text_pairs out.items ≡ sort_pairs (map spec.encode_pair query.now.items)) }
{
    let mut pairs = escape_all(alloc, query)?;
    sort(&mut pairs)?;
    Ok(pairs)
}

/// Adds one escaped parameter, with `&` in front of it unless it is the first.
fn push_parameter(out: &mut String, first: bool, pair: &(String, String)) -> Result<(), AllocError>
    ensures { OnOk result (string_bytes out.new
        ≡ string_bytes out.old
        ++ next_piece (codes "&") first (spec.parameter (string_bytes pair.now.0, string_bytes pair.now.1))) }
{
    push_piece(out, "&", first, pair.0.as_str())?;
    out.push_str("=")?;
    out.push_str(pair.1.as_str())
}

/// Adds escaped parameters, joined by `&`.
fn push_parameters(out: &mut String, pairs: &[(String, String)]) -> Result<(), AllocError>
    ensures { OnOk result (string_bytes out.new ≡ string_bytes out.old ++ spec.parameters (text_pairs pairs.now)) }
{
    for (i, pair) in pairs.iter().enumerate() {
        push_parameter(out, i == 0, pair)?;
    }
    Ok(())
}

/// The query as it is signed: each name and value escaped, sorted by name and then by value, joined by `&`.
#[tactic(auto, unfolding(crate::specs::Signing::canonical_query))]
pub fn canonical_query(alloc: Global, query: &Pairs) -> Result<String, AllocError>
    ensures { IfOk result (λ text. string_bytes text ≡ spec.canonical_query query.now.items) }
{
    let pairs = escaped_in_order(alloc, query)?;
    let mut out = String::new(alloc);
    push_parameters(&mut out, &pairs)?;
    Ok(out)
}
