//! The words of a line.

use crate::lines::{parted, word_and_rest};

/// A line's words, and its three lists.
#[derive(Clone, Copy)]
pub(crate) struct Words<'a> {
    pub call: &'a str,
    pub from: &'a str,
    pub to: &'a str,
    pub times: &'a str,
    pub flags: &'a str,
    pub filters: &'a str,
    pub source: &'a str,
    pub dest: &'a str,
}

/// The line of these words and lists.
fn words_with<'a>(words: &'a str, filters: &'a str, source: &'a str, dest: &'a str) -> Words<'a> {
    let (call, words) = word_and_rest(words);
    let (from, words) = word_and_rest(words);
    let (to, words) = word_and_rest(words);
    let (times, words) = word_and_rest(words);
    let (flags, _) = word_and_rest(words);
    Words {
        call,
        from,
        to,
        times,
        flags,
        filters,
        source,
        dest,
    }
}

pub(crate) fn words_of(line: &str) -> Words<'_> {
    let (words, lists) = parted(line, "|");
    let (filters, lists) = parted(lists, "|");
    let (source, dest) = parted(lists, "|");
    words_with(words, filters, source, dest)
}
