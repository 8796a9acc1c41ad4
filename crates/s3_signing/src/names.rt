//! Names of headers in the order that a signature asks.
ghost use Rattle.std.specs.Prelude.{◌≡◌, ◌↔◌, All, IsTrue, length};
ghost use Rattle.std.specs.List.{AllAdjacentBelow};
ghost use Rattle.std.specs.Cmp.Lexicographic.{slice_cmp};
ghost use Rattle.std.specs.Ordering.{nat_cmp};
ghost use Rattle.std.specs.declared.cmp.Ordering.TheVariants.{Less};
ghost use Rattle.s3_signing.specs.Signing as spec;

use s3_model::{Pairs, Text};

fn is_lower_case(name: &str) -> bool
    ensures { IsTrue result ↔ spec.IsLowerCase name.now }
{
    name.as_bytes()
        .iter()
        .all(|byte| !byte.is_ascii_uppercase())
}

fn are_lower_case(headers: &[(Text, Text)]) -> bool
    ensures { IsTrue result ↔ All (λ h. spec.IsLowerCase h.0) headers.now }
{
    headers
        .iter()
        .all(|header| is_lower_case(header.0.as_str()))
}

fn is_before(first: &Text, second: &Text) -> bool
    ensures { IsTrue result ↔ (slice_cmp nat_cmp first.now second.now ≡ Less) }
{
    first.as_str() < second.as_str()
}

fn ascend(headers: &[(Text, Text)]) -> bool
    ensures { IsTrue result ↔ AllAdjacentBelow spec.IsBefore headers.now (length headers.now) }
{
    for i in 1..headers.len() {
        if !is_before(&headers[i - 1].0, &headers[i].0) {
            return false;
        }
    }
    true
}

/// Whether the names are in lower case, distinct and sorted, as [`crate::canonical_request`] asks.
pub fn has_sorted_names(headers: &Pairs) -> bool
    ensures { IsTrue result ↔ spec.HasSortedNames headers.now.items }
{
    if !are_lower_case(headers.as_slice()) {
        return false;
    }
    ascend(headers.as_slice())
}
