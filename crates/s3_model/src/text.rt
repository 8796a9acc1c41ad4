//! Owned texts.

ghost use Rattle.std.specs.Prelude.{◌≡◌, IfOk, codes, nat_eq};
ghost use Rattle.std.specs.List.{ends_with, flat_map};
ghost use Rattle.s3_model.specs.Files.{ends_in_slash};

use crate::list::OutOfMemory;
use std::alloc::Global;
use std::marker::Model;

/// An owned text. Contracts see the list of its UTF-8 bytes.
#[derive(Debug, Drop)]
pub struct Text {
    inner: String,
}

impl Model for Text {
    ghost use Rattle.std.specs.Prelude.{List, ℕ, string_bytes};

    ghost Value = { List ℕ };

    ghost view = { λ t. string_bytes t.inner };
}

fn size_of_all(pieces: &[&str]) -> usize {
    let mut size: usize = 0;
    for piece in pieces {
        size = size.saturating_add(piece.len());
    }
    size
}

impl Text {
    /// A copy of a text.
    pub fn of(alloc: Global, s: &str) -> Result<Text, OutOfMemory>
        ensures { IfOk result (λ text. text ≡ s.now) }
    {
        let inner = String::from_str(alloc, s)?;
        Ok(Text { inner })
    }

    /// The pieces one after another, in one text of just that size.
    pub fn joined(alloc: Global, pieces: &[&str]) -> Result<Text, OutOfMemory>
        ensures { IfOk result (λ text. text ≡ flat_map (λ piece. piece.now) pieces.now) }
    {
        let mut inner = String::with_capacity(alloc, size_of_all(pieces))?;
        for piece in pieces {
            inner.push_str(piece)?;
        }
        Ok(Text { inner })
    }

    /// The text, lent.
    pub fn as_str(&self) -> &str
        ensures { result.now ≡ self.now }
    {
        self.inner.as_str()
    }

    /// A second owner of the same text.
    pub fn copy(&self) -> Result<Text, OutOfMemory>
        ensures { IfOk result (λ text. text ≡ self.now) }
    {
        let inner = self.inner.clone()?;
        Ok(Text { inner })
    }

    /// A copy of a text that may be absent.
    pub fn copy_option(text: &Option<Text>) -> Result<Option<Text>, OutOfMemory>
        ensures { IfOk result (λ copy. copy ≡ text.now) }
    {
        match text {
            Some(text) => Ok(Some(text.copy()?)),
            None => Ok(None),
        }
    }
}

/// Whether a text ends in `/`.
pub fn ends_in_slash(text: &str) -> bool
    ensures value { result ≡ ends_with nat_eq text.now (codes "/") }
    ensures last { result ≡ ends_in_slash text.now }
{
    text.ends_with("/")
}

/// A text that was put together takes over the string, without memory.
impl From<String> for Text {
    ghost use Rattle.std.specs.Prelude.{◌≡◌, string_bytes};

    ghost from_gives = { λ s t. t ≡ string_bytes s };

    fn from(inner: String) -> Text {
        Text { inner }
    }
}
