//! The two sides of a line: places, and what is listed below them.

ghost use Rattle.std.specs.Prelude.{◌≡◌, IfSome};
ghost use Rattle.call_rows.specs.Sides.{IsListedAt, IsListedBy};

use crate::lines::{number, parted, text_of};
use list_walk::Pages;
use s3_model::{Entries, Entry, Listed, OutOfMemory, Place, Texts};
use std::alloc::Global;
use std::mem;

pub(crate) fn place_of(alloc: Global, text: &str) -> Place {
    match text.split_once(':') {
        Some((bucket, key)) => Place::Object {
            bucket: text_of(alloc, bucket),
            key: text_of(alloc, key),
        },
        None => Place::File {
            path: text_of(alloc, text),
        },
    }
}

fn entry_of(alloc: Global, word: &str) -> Entry {
    let (key, rest) = parted(word, ",");
    let (size, rest) = parted(rest, ",");
    let (micros, etag) = parted(rest, ",");
    Entry {
        key: text_of(alloc, key),
        size: number(size),
        etag: text_of(alloc, etag),
        micros: number(micros),
    }
}

fn push_entry(alloc: Global, entries: &mut Entries, word: &str) -> Result<(), OutOfMemory> {
    entries.reserve(1)?;
    entries.push(entry_of(alloc, word));
    Ok(())
}

/// The entries of a list; those for which there is memory.
fn entries_of(alloc: Global, text: &str) -> Entries {
    let mut entries = Entries::make(alloc);
    for word in text.split(' ') {
        if !word.is_empty() {
            let _ = push_entry(alloc, &mut entries, word);
        }
    }
    entries
}

/// A listing of which this page has come, if it is in byte order.
fn pages_with(alloc: Global, prefix: &str, page: &Listed) -> Option<Pages>
    ensures { IfSome result (λ pages. pages.prefix ≡ prefix.now) }
{
    let Ok(mut pages) = Pages::make(alloc, "", prefix, false) else {
        return None;
    };
    match pages.feed(page) {
        Ok(()) => Some(pages),
        Err(_) => {
            mem::drop(pages);
            None
        }
    }
}

/// The one page of a listing.
fn listed(alloc: Global, prefix: &str, entries: Entries) -> Option<Pages>
    ensures { IfSome result (λ pages. pages.prefix ≡ prefix.now) }
{
    let page = Listed {
        entries,
        prefixes: Texts::make(alloc),
        more: false,
        token: None,
    };
    let pages = pages_with(alloc, prefix, &page);
    mem::drop(page);
    pages
}

/// What is listed below a place, if it is in byte order.
pub(crate) fn pages_of(alloc: Global, at: &Place, entries: &str) -> Option<Pages>
    ensures { IfSome result (λ pages. IsListedBy at.now pages.prefix) }
{
    let entries = entries_of(alloc, entries);
    match at {
        Place::Object { key, .. } => listed(alloc, key.as_str(), entries),
        Place::File { .. } => listed(alloc, "", entries),
    }
}

pub(crate) fn pages_at(alloc: Global, at: &Option<Place>, entries: &str) -> Option<Pages>
    ensures { IfSome result (λ pages. IsListedAt at.now pages.prefix) }
{
    match at {
        Some(at) => pages_of(alloc, at, entries),
        None => None,
    }
}
