//! Errands and entries as text.

use crate::commands::shown::{push_flag, push_kept, push_text};
use crate::lines::push_value;
use crate::plans::shown::{kind_name, push_place};
use s3_model::{Entries, Entry, OutOfMemory, Place, Times};
use std::alloc::AllocError;
use sync_plan::Errand;

/// Adds the destination, where there is one.
fn push_dest(out: &mut String, to: &Option<Place>) -> Result<(), AllocError> {
    match to {
        Some(to) => {
            out.push_str(" > ")?;
            push_place(out, to)
        }
        None => Ok(()),
    }
}

fn push_flags(out: &mut String, errand: &Errand) -> Result<(), AllocError> {
    let flags = [
        ("moves", errand.moves),
        ("many", errand.many),
        ("size-only", matches!(errand.times, Times::SizeOnly)),
        ("exact", matches!(errand.times, Times::Exact)),
        ("delete", errand.remove_extra),
        ("no-guess", !errand.guess),
        ("fresh", errand.fresh),
    ];
    for (name, given) in flags {
        push_flag(out, name, given)?;
    }
    Ok(())
}

fn push_parts(out: &mut String, errand: &Errand) -> Result<(), AllocError> {
    write!(out, "{} ", kind_name(errand.kind))?;
    push_place(out, &errand.from)?;
    push_dest(out, &errand.to)?;
    push_flags(out, errand)?;
    push_text(out, "type", &errand.content)?;
    push_kept(out, &errand.filters)
}

pub(crate) fn push_taken(
    out: &mut String,
    taken: Result<Errand, OutOfMemory>,
) -> Result<(), AllocError> {
    match &taken {
        Ok(errand) => push_parts(out, errand),
        Err(why) => push_value(out, *why),
    }
}

fn push_entry(out: &mut String, entry: &Entry) -> Result<(), AllocError> {
    let (key, etag) = (entry.key.as_str(), entry.etag.as_str());
    write!(out, "{key:?} {} {} {etag:?}", entry.size, entry.micros)
}

pub(crate) fn push_entries(
    out: &mut String,
    entries: Result<Entries, OutOfMemory>,
) -> Result<(), AllocError> {
    match &entries {
        Ok(entries) => {
            for entry in entries.as_slice() {
                push_entry(out, entry)?;
            }
            Ok(())
        }
        Err(why) => push_value(out, *why),
    }
}
