//! Patterns, read from their texts.

ghost use Rattle.std.specs.Prelude.{◌≡◌, ◌↔◌, ◌≤◌, ◌∷◌, ℕ, List, length, false, IsTrue, IfOk};
ghost use Rattle.std.specs.Str.{chars};
ghost use Rattle.path_filters.specs.Patterns.{BeginsWith, IsClosed, IsPattern, Matches, is_match};
ghost use Rattle.path_filters.specs.Sets.{NeverClosed};

use crate::pieces::{FirstPiece, Piece};
use crate::runs::matches;
use crate::sets::set_or_bracket;
use crate::texts::first_char;
use s3_model::OutOfMemory;
use std::alloc::Global;
use std::marker::Model;

/// A pattern of relative paths: `*` stands for any text, `/` too, `?` for one character, `[seq]` and `[!seq]` for one
/// in or out of a set, and every other character for itself.
#[derive(Drop)]
pub struct Pattern {
    pieces: Vec<Piece>,
}

impl Model for Pattern {
    ghost use Rattle.std.specs.Prelude.{List};
    ghost use Rattle.path_filters.specs.declared.pieces.Piece.{Piece};

    ghost Value = { List Piece };

    ghost view = { λ p. p.pieces.items };
}

/// What a character stands for that begins no set.
fn plain_piece(code: char) -> Piece
    ensures { (rest : List ℕ) → (code ≡ 91 → ¬ (IsClosed rest)) → BeginsWith (code ∷ rest) result rest }
{
    match code {
        '*' => Piece::Star,
        '?' => Piece::Question,
        _ => Piece::One(code),
    }
}

/// What a pattern begins with, of its first character and the text behind that; `closes` says whether a `[` can be closed.
fn piece_from(
    alloc: Global,
    code: char,
    text: &str,
    closes: bool,
) -> Result<FirstPiece<'_>, OutOfMemory>
    requires { closes ≡ false → NeverClosed (code ∷ chars text.now) }
    ensures piece { IfOk result (λ first. BeginsWith (code ∷ chars text.now) first.piece (chars first.rest.now)) }
    ensures shorter { IfOk result (λ first. length first.rest.now ≤ length text.now) }
    ensures closes { IfOk result (λ first. first.closes ≡ false → NeverClosed (chars first.rest.now)) }
{
    if closes && code == '[' {
        return set_or_bracket(alloc, text);
    }
    Ok(FirstPiece {
        piece: plain_piece(code),
        rest: text,
        closes,
    })
}

impl Pattern {
    ghost use Rattle.path_filters.specs.declared.pieces.Piece.{Piece};

    /// Reads a pattern; every text is one. A `[` that no `]` closes stands for itself, a `]` that comes first in a set is a
    /// member of it, and a range with its ends reversed has no member.
    pub fn read(alloc: Global, text: &str) -> Result<Pattern, OutOfMemory>
        ensures spelled { IfOk result (λ pattern. IsPattern (chars text.now) pattern) }
        ensures alone { IfOk result (λ pattern. (pieces : List Piece) → IsPattern (chars text.now) pieces →
            pieces ≡ pattern) }
    {
        let mut pieces = Vec::new(alloc);
        let mut left = text;
        let mut closes = true;
        while let Some((code, after)) = first_char(left) {
            let first = piece_from(alloc, code, after, closes)?;
            left = first.rest;
            closes = first.closes;
            pieces.push(first.piece)?;
        }
        Ok(Pattern { pieces })
    }

    /// Whether the pattern stands for the whole path, character by character. It takes no memory, and its time grows with
    /// the lengths of pattern and path multiplied.
    pub fn matches(&self, path: &str) -> bool
        ensures stands { IsTrue result ↔ Matches self.now (chars path.now) }
        ensures value { result ≡ is_match self.now (chars path.now) }
    {
        matches(self.pieces.as_slice(), path)
    }
}
