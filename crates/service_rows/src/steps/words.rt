//! The words of a step.

use crate::texts::{text, text_or_empty};
use reply_values::url_decode;
use s3_model::{OutOfMemory, Text, Texts};
use std::alloc::{AllocError, Global};
use std::mem;

/// The words of a step that are left, with one space between them.
#[derive(Drop)]
pub(crate) struct Words<'a> {
    rest: &'a str,
}

/// The object that a step names.
#[derive(Drop)]
pub(crate) struct Spot {
    pub bucket: Text,
    pub key: Text,
}

impl<'a> Words<'a> {
    pub(crate) fn of(line: &'a str) -> Words<'a> {
        Words { rest: line }
    }

    /// The next word; the empty text where none is left.
    pub(crate) fn next(&mut self) -> &'a str {
        let (word, rest) = self.rest.split_once(' ').unwrap_or((self.rest, ""));
        self.rest = rest;
        word
    }

    /// All words that are left, as they are written.
    pub(crate) fn rest(&self) -> &'a str {
        self.rest
    }

    /// The next word as a text: `-` is the empty one, and escapes are those of a URL.
    pub(crate) fn text(&mut self, alloc: Global) -> Text {
        text_of(alloc, self.next())
    }

    /// The bytes of the next word as a text.
    pub(crate) fn bytes(&mut self, alloc: Global) -> Vec<u8> {
        let text = self.text(alloc);
        bytes_of(alloc, text.as_str())
    }

    /// The next two words as an object's bucket and key.
    pub(crate) fn spot(&mut self, alloc: Global) -> Spot {
        let bucket = self.text(alloc);
        let key = self.text(alloc);
        Spot { bucket, key }
    }

    /// The next word as an entity tag, which is written without quotes.
    pub(crate) fn etag(&mut self, alloc: Global) -> Text {
        quoted(alloc, self.next())
    }

    /// The next word as a list of entity tags with commas; `-` is the empty list.
    pub(crate) fn etags(&mut self, alloc: Global) -> Texts {
        etags_of(alloc, self.next())
    }

    /// The next word as a number; 0 where it is none.
    pub(crate) fn number(&mut self) -> u64 {
        number_of(self.next()).unwrap_or(0)
    }

    /// The next word as the two numbers of `a-b`.
    pub(crate) fn range(&mut self) -> Option<(u64, u64)> {
        range_of(self.next())
    }

    /// Whether the next word is this one.
    pub(crate) fn is(&mut self, word: &str) -> bool {
        self.next() == word
    }
}

/// A word as a text.
fn text_of(alloc: Global, word: &str) -> Text {
    if word == "-" {
        return text(alloc, "");
    }
    match url_decode(alloc, word) {
        Ok(text) => text,
        Err(_) => text(alloc, word),
    }
}

/// The bytes of a text; none where there is no memory.
fn bytes_of(alloc: Global, text: &str) -> Vec<u8> {
    match text.as_bytes().to_vec(alloc) {
        Ok(bytes) => bytes,
        Err(AllocError) => Vec::new(alloc),
    }
}

fn quoted(alloc: Global, word: &str) -> Text {
    text_or_empty(alloc, Text::joined(alloc, &["\"", word, "\""]))
}

/// Adds an entity tag; none where there is no memory.
fn push_etag(etags: &mut Texts, etag: Text) {
    match etags.reserve(1) {
        Ok(()) => etags.push(etag),
        Err(OutOfMemory) => mem::drop(etag),
    }
}

fn etags_of(alloc: Global, word: &str) -> Texts {
    let mut etags = Texts::make(alloc);
    if word == "-" {
        return etags;
    }
    for piece in word.split(',') {
        push_etag(&mut etags, quoted(alloc, piece));
    }
    etags
}

/// The number that a word is, if it is one.
pub(crate) fn number_of(word: &str) -> Option<u64> {
    word.parse::<u64>().ok()
}

fn range_of(word: &str) -> Option<(u64, u64)> {
    let (first, last) = word.split_once('-')?;
    Some((number_of(first)?, number_of(last)?))
}
