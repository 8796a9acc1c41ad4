//! What a pattern is made of.

ghost use Rattle.std.specs.Prelude.{◌≡◌, ◌↔◌, ◌∷◌, ◌++◌, [], IsTrue, OnOk, OnErr};
ghost use Rattle.path_filters.specs.Patterns.{IsMember, Takes, is_star};

use s3_model::OutOfMemory;
use std::alloc::Global;
use std::marker::Model;

/// The characters from `first` to `last`, both among them; none where `last` stands before `first`.
#[derive(Clone, Copy)]
pub struct Range {
    pub first: char,
    pub last: char,
}

/// The ranges of a set, in the order in which it spells them.
#[derive(Drop)]
pub struct Ranges {
    inner: Vec<Range>,
}

impl Model for Ranges {
    ghost use Rattle.std.specs.Prelude.{List};
    ghost use Rattle.path_filters.specs.declared.pieces.Range.{Range};

    ghost Value = { List Range };

    ghost view = { λ r. r.inner.items };
}

/// What stands in a pattern.
#[derive(Drop)]
pub enum Piece {
    /// `*`, any text.
    Star,
    /// `?`, one character.
    Question,
    /// A character that stands for itself.
    One(char),
    /// `[seq]` or `[!seq]`, one character in or out of the set.
    Set { negated: bool, members: Ranges },
}

/// What a pattern begins with.
#[derive(Drop)]
pub(crate) struct FirstPiece<'t> {
    pub piece: Piece,
    /// What follows the piece.
    pub rest: &'t str,
    /// Whether a `[` of the rest can be closed.
    pub closes: bool,
}

impl Ranges {
    pub(crate) fn new(alloc: Global) -> Ranges
        ensures { result ≡ [] }
    {
        Ranges {
            inner: Vec::new(alloc),
        }
    }

    pub(crate) fn push(&mut self, range: Range) -> Result<(), OutOfMemory>
        ensures ok { OnOk result (self.new ≡ self.old ++ range ∷ []) }
        ensures err { OnErr result (self.new ≡ self.old) }
    {
        self.inner.push(range)?;
        Ok(())
    }

    /// Whether the character stands in one of the ranges.
    fn has(&self, code: char) -> bool
        ensures { IsTrue result ↔ IsMember self.now code }
    {
        self.inner
            .iter()
            .any(|range| range.first <= code && code <= range.last)
    }
}

impl Piece {
    /// Whether this is the one character, or one of those, that the piece stands for.
    pub(crate) fn takes(&self, code: char) -> bool
        ensures { IsTrue result ↔ Takes self.now code }
    {
        match self {
            Piece::Star => false,
            Piece::Question => true,
            Piece::One(letter) => *letter == code,
            Piece::Set { negated, members } => members.has(code) != *negated,
        }
    }

    pub(crate) fn is_star(&self) -> bool
        ensures { result ≡ is_star self.now }
    {
        matches!(self, Piece::Star)
    }
}
