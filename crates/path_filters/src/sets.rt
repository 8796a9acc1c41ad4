//! Sets of characters in brackets.

ghost use Rattle.std.specs.Prelude.{
  ◌≡◌,
  ◌≢◌,
  ◌∷◌,
  ◌++◌,
  ◌≤◌,
  ◌<◌,
  [],
  List,
  ℕ,
  All,
  length,
  false,
  MatchOption,
  IfSome,
  IfOk,
};
ghost use Rattle.std.specs.Str.{chars};
ghost use Rattle.path_filters.specs.Patterns.{ranges_of, bracketed, IsInside, IsClosed, BeginsWith};
ghost use Rattle.path_filters.specs.Sets.{IsRangeEnd, NeverClosed};

use crate::pieces::{FirstPiece, Piece, Range, Ranges};
use crate::texts::first_char;
use s3_model::OutOfMemory;
use std::alloc::Global;

/// The character that ends a range, where a `-` and such a character come next, and what follows it.
fn range_end(text: &str) -> Option<(char, &str)>
    ensures end { MatchOption result (¬ (IsRangeEnd (chars text.now)))
        (λ parts. chars text.now ≡ 45 ∷ parts.0 ∷ chars parts.1.now) }
    ensures shorter { IfSome result (λ parts. length parts.1.now < length text.now) }
{
    let Some((dash, after)) = first_char(text) else {
        return None;
    };
    if dash != '-' {
        return None;
    }
    first_char(after)
}

/// The range that begins with a character, and what follows it.
fn range_from(first: char, text: &str) -> (Range, &str)
    ensures range { ranges_of (first ∷ chars text.now) ≡ result.0 ∷ ranges_of (chars result.1.now) }
    ensures shorter { length result.1.now ≤ length text.now }
{
    match range_end(text) {
        Some((last, rest)) => (Range { first, last }, rest),
        None => (Range { first, last: first }, text),
    }
}

/// Whether a set is negated, and what stands in it and behind it.
fn negation(text: &str) -> (bool, &str)
    ensures whole { chars text.now ≡ bracketed result.0 (chars result.1.now) }
    ensures plain { result.0 ≡ false → (rest : List ℕ) → chars result.1.now ≢ 33 ∷ rest }
    ensures shorter { length result.1.now ≤ length text.now }
{
    let Some((mark, inner)) = first_char(text) else {
        return (false, text);
    };
    if mark == '!' {
        (true, inner)
    } else {
        (false, text)
    }
}

/// What stands before the first `]`, and what follows it.
fn split_at_bracket(text: &str) -> Option<(&str, &str)>
    ensures parts { MatchOption result (All (λ code. code ≢ 93) (chars text.now))
        (λ parts. chars text.now ≡ chars parts.0.now ++ 93 ∷ chars parts.1.now) }
    ensures before { IfSome result (λ parts. All (λ code. code ≢ 93) (chars parts.0.now)) }
    ensures shorter { IfSome result (λ parts. length parts.1.now < length text.now) }
{
    text.split_once(']')
}

/// A set between its brackets, and what follows it.
#[derive(Clone, Copy)]
struct SetParts<'t> {
    negated: bool,
    first: char,
    others: &'t str,
    rest: &'t str,
}

/// The parts of the set whose `[` stands before the text, where a `]` closes it.
fn set_parts(text: &str) -> Option<SetParts<'_>>
    ensures closed { MatchOption result (¬ (IsClosed (chars text.now)))
        (λ set. chars text.now ≡ bracketed set.negated (set.first ∷ chars set.others.now) ++ 93 ∷ chars set.rest.now) }
    ensures inside { IfSome result (λ set. IsInside set.negated (set.first ∷ chars set.others.now)) }
    ensures shorter { IfSome result (λ set. length set.rest.now < length text.now) }
{
    let (negated, inner) = negation(text);
    let Some((first, more)) = first_char(inner) else {
        return None;
    };
    let Some((others, rest)) = split_at_bracket(more) else {
        return None;
    };
    Some(SetParts {
        negated,
        first,
        others,
        rest,
    })
}

/// The ranges that a set's characters spell: the first, and those of a text.
fn ranges(alloc: Global, first: char, others: &str) -> Result<Ranges, OutOfMemory>
    ensures { IfOk result (λ ranges. ranges ≡ ranges_of (first ∷ chars others.now)) }
{
    let mut ranges = Ranges::new(alloc);
    let (range, mut left) = range_from(first, others);
    ranges.push(range)?;
    while let Some((code, after)) = first_char(left) {
        let (range, rest) = range_from(code, after);
        ranges.push(range)?;
        left = rest;
    }
    Ok(ranges)
}

/// The piece that a `[` begins, which stands before the text. One that is never closed stands for itself, and then none
/// behind it is closed either.
pub(crate) fn set_or_bracket(alloc: Global, text: &str) -> Result<FirstPiece<'_>, OutOfMemory>
    ensures piece { IfOk result (λ first. BeginsWith (91 ∷ chars text.now) first.piece (chars first.rest.now)) }
    ensures shorter { IfOk result (λ first. length first.rest.now ≤ length text.now) }
    ensures closes { IfOk result (λ first. first.closes ≡ false → NeverClosed (chars first.rest.now)) }
{
    let Some(set) = set_parts(text) else {
        return Ok(FirstPiece {
            piece: Piece::One('['),
            rest: text,
            closes: false,
        });
    };
    let members = ranges(alloc, set.first, set.others)?;
    let negated = set.negated;
    Ok(FirstPiece {
        piece: Piece::Set { negated, members },
        rest: set.rest,
        closes: true,
    })
}
