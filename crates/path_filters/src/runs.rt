//! Whether a text matches a pattern.

ghost use Rattle.std.specs.Prelude.{◌≡◌, ◌∷◌, [], ◌≤◌, ◌↔◌, length, IsTrue, IfSome, IfNone};
ghost use Rattle.std.specs.Str.{chars};
ghost use Rattle.path_filters.specs.Patterns.{Matches};
ghost use Rattle.path_filters.specs.Runs.{IsLeft, StopsAtStar};

use crate::pieces::Piece;
use crate::texts::first_char;

/// What is left of the pieces and of the text, once each piece before the first star took a character.
fn run<'p, 't>(pieces: &'p [Piece], text: &'t str) -> Option<(&'p [Piece], &'t str)>
    ensures stuck { IfNone result (¬ (Matches pieces.now (chars text.now))) }
    ensures left { IfSome result (λ ends. IsLeft pieces.now (chars text.now) ends.0.now (chars ends.1.now)) }
    ensures stops { IfSome result (λ ends. StopsAtStar ends.0.now) }
{
    let mut left = pieces;
    let mut rest = text;
    while let Some((piece, more)) = left.split_first() {
        if piece.is_star() {
            break;
        }
        let Some((code, after)) = first_char(rest) else {
            return None;
        };
        if !piece.takes(code) {
            return None;
        }
        left = more;
        rest = after;
    }
    Some((left, rest))
}

/// The same, where the text also ends with the last piece.
fn run_to_end<'p, 't>(pieces: &'p [Piece], text: &'t str) -> Option<(&'p [Piece], &'t str)>
    ensures stuck { IfNone result (¬ (Matches pieces.now (chars text.now))) }
    ensures left { IfSome result (λ ends. IsLeft pieces.now (chars text.now) ends.0.now (chars ends.1.now)) }
    ensures stops { IfSome result (λ ends. StopsAtStar ends.0.now) }
    ensures end { IfSome result (λ ends. ends.0.now ≡ [] → ends.1.now ≡ []) }
{
    let Some((left, rest)) = run(pieces, text) else {
        return None;
    };
    if left.is_empty() && !rest.is_empty() {
        return None;
    }
    Some((left, rest))
}

/// The same for pieces behind a star, from the first place in the text where they match.
fn first_run<'p, 't>(pieces: &'p [Piece], text: &'t str) -> Option<(&'p [Piece], &'t str)>
    ensures stuck { IfNone result (¬ (Matches (Piece.Star ∷ pieces.now) (chars text.now))) }
    ensures left { IfSome result (λ ends. Matches (Piece.Star ∷ pieces.now) (chars text.now) ↔
        Matches ends.0.now (chars ends.1.now)) }
    ensures stops { IfSome result (λ ends. StopsAtStar ends.0.now) }
    ensures fewer { IfSome result (λ ends. length ends.0.now ≤ length pieces.now) }
{
    let mut from = text;
    loop {
        if let Some((left, rest)) = run_to_end(pieces, from) {
            return Some((left, rest));
        }
        let Some((_, after)) = first_char(from) else {
            return None;
        };
        from = after;
    }
}

/// Whether the pieces stand for the text, one after another.
///
/// Of several stars only the last one's place is tried further, so the time grows with pieces times characters.
pub(crate) fn matches(pieces: &[Piece], text: &str) -> bool
    ensures { IsTrue result ↔ Matches pieces.now (chars text.now) }
{
    let Some((mut left, mut rest)) = run(pieces, text) else {
        return false;
    };
    while let Some((_, more)) = left.split_first() {
        let Some((after, end)) = first_run(more, rest) else {
            return false;
        };
        left = after;
        rest = end;
    }
    rest.is_empty()
}
