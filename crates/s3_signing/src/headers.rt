//! Headers as they are signed.
ghost use Rattle.std.specs.Prelude.{◌≡◌, ◌++◌, OnOk, IfOk, map, string_bytes};
ghost use Rattle.std.specs.List.{flat_map};
ghost use Rattle.s3_signing.specs.Signing as spec;
ghost use Rattle.s3_signing.specs.Headers.{pairs_of, next_piece};

use s3_model::Pairs;
use std::alloc::{AllocError, Global};

/// A header that is lent: its name in lower case, and its value.
#[derive(Clone, Copy, Default)]
pub struct Header<'a> {
    pub name: &'a str,
    pub value: &'a str,
}

/// Lends the pairs as headers.
pub fn lend<'a>(alloc: Global, pairs: &'a Pairs) -> Result<Vec<Header<'a>>, AllocError>
    ensures { IfOk result (λ headers. pairs_of headers.items ≡ pairs.now.items) }
{
    let mut headers = Vec::with_capacity(alloc, pairs.len())?;
    for pair in pairs.as_slice() {
        headers.push_reserved(Header {
            name: pair.0.as_str(),
            value: pair.1.as_str(),
        });
    }
    Ok(headers)
}

/// Adds a piece, with the separator in front of it unless it is the first.
pub fn push_piece(
    out: &mut String,
    separator: &str,
    first: bool,
    piece: &str,
) -> Result<(), AllocError>
    ensures { OnOk result (string_bytes out.new ≡ string_bytes out.old ++ next_piece separator.now first piece.now) }
{
    if !first {
        out.push_str(separator)?;
    }
    out.push_str(piece)
}

/// Adds a value without outer spaces, and with each run of spaces inside as one space.
fn push_trimmed(out: &mut String, value: &str) -> Result<(), AllocError>
    ensures { OnOk result (string_bytes out.new ≡ string_bytes out.old ++ spec.trimmed value.now) }
{
    let mut first = true;
    for word in value.split(' ') {
        if !word.is_empty() {
            push_piece(out, " ", first, word)?;
            first = false;
        }
    }
    Ok(())
}

fn push_canonical_header(out: &mut String, name: &str, value: &str) -> Result<(), AllocError>
    ensures { OnOk result (string_bytes out.new ≡ string_bytes out.old ++ spec.canonical_header (name.now, value.now)) }
{
    out.push_str(name)?;
    out.push_str(":")?;
    push_trimmed(out, value)?;
    out.push_str("\n")
}

/// Adds each header as it is signed.
pub fn push_canonical_headers(out: &mut String, headers: &[Header<'_>]) -> Result<(), AllocError>
    ensures { OnOk result (string_bytes out.new
        ≡ string_bytes out.old ++ flat_map spec.canonical_header (pairs_of headers.now)) }
{
    for header in headers {
        push_canonical_header(out, header.name, header.value)?;
    }
    Ok(())
}

/// Adds the names, joined by `;`.
pub fn push_signed_names(out: &mut String, headers: &[Header<'_>]) -> Result<(), AllocError>
    ensures { OnOk result (string_bytes out.new ≡ string_bytes out.old ++ spec.signed_names (pairs_of headers.now)) }
{
    for (i, header) in headers.iter().enumerate() {
        push_piece(out, ";", i == 0, header.name)?;
    }
    Ok(())
}
