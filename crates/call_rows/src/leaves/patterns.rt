//! Patterns and filters.

use path_filters::{Filters, Pattern};
use s3_model::OutOfMemory;
use std::alloc::Global;

pub(crate) fn stands(alloc: Global, pattern: &str, path: &str) -> Result<bool, OutOfMemory> {
    let pattern = Pattern::read(alloc, pattern)?;
    Ok(pattern.matches(path))
}

/// Adds the filter that a word spells: `+*.txt` keeps what matches, `-*.txt` leaves it out.
fn push_filter(alloc: Global, filters: &mut Filters, word: &str) -> Result<(), OutOfMemory> {
    if let Some(pattern) = word.strip_prefix("+") {
        return filters.push(true, Pattern::read(alloc, pattern)?);
    }
    if let Some(pattern) = word.strip_prefix("-") {
        return filters.push(false, Pattern::read(alloc, pattern)?);
    }
    Ok(())
}

/// The filters that words spell.
pub(crate) fn filters_of(alloc: Global, words: &str) -> Result<Filters, OutOfMemory> {
    let mut filters = Filters::make(alloc);
    for word in words.split(' ') {
        push_filter(alloc, &mut filters, word)?;
    }
    Ok(filters)
}

/// Whether these filters keep a path.
pub(crate) fn keeps(alloc: Global, words: &str, path: &str) -> Result<bool, OutOfMemory> {
    let filters = filters_of(alloc, words)?;
    Ok(filters.keeps(path))
}
