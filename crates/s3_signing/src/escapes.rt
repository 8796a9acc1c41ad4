//! Escapes of paths and queries.
ghost use Rattle.std.specs.Prelude.{◌≡◌, ◌++◌, OnOk, string_bytes};
ghost use Rattle.s3_signing.specs.Signing as spec;

use percent_encoding::{AsciiSet, NON_ALPHANUMERIC, ascii_set, utf8_percent_encode};
use std::alloc::AllocError;

/// The ASCII bytes that are escaped in a query: all but letters, digits and `-._~`.
pub const QUERY: AsciiSet = ascii_set!(
    NON_ALPHANUMERIC
        .remove(b'-')
        .remove(b'.')
        .remove(b'_')
        .remove(b'~')
);

/// The ASCII bytes that are escaped in a path, where `/` stays.
pub const PATH: AsciiSet = ascii_set!(QUERY.remove(b'/'));

/// Adds a name or a value of a query, escaped.
#[tactic(auto, using(crate::proofs::EscapeLemmas::encode_query_is))]
pub fn push_query(out: &mut String, text: &str) -> Result<(), AllocError>
    ensures { OnOk result (string_bytes out.new ≡ string_bytes out.old ++ spec.encode_query text.now) }
{
    utf8_percent_encode(text, QUERY).append_to(out)
}

/// Adds a path, escaped.
#[tactic(auto, using(crate::proofs::EscapeLemmas::encode_path_is))]
pub fn push_path(out: &mut String, text: &str) -> Result<(), AllocError>
    ensures { OnOk result (string_bytes out.new ≡ string_bytes out.old ++ spec.encode_path text.now) }
{
    utf8_percent_encode(text, PATH).append_to(out)
}
