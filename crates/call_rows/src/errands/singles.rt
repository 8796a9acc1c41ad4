//! The entries of single objects.

use crate::errands::shown::push_entries;
use crate::lines::{number, parted, text_of, word_and_rest};
use crate::plans::sides::place_of;
use command_errands::{single_object, single_removal};
use s3_model::Place;
use std::alloc::{AllocError, Global};

pub(crate) fn push_object(alloc: Global, out: &mut String, line: &str) -> Result<(), AllocError> {
    let (place, facts) = word_and_rest(line);
    let (size, facts) = parted(facts, ",");
    let (micros, etag) = parted(facts, ",");
    let from = place_of(alloc, place);
    if !matches!(from, Place::Object { .. }) {
        return out.push_str("no object");
    }
    let etag = text_of(alloc, etag);
    let entries = single_object(alloc, &from, number(size), etag, number(micros));
    push_entries(out, entries)
}

pub(crate) fn push_removal(alloc: Global, out: &mut String, line: &str) -> Result<(), AllocError> {
    let from = place_of(alloc, line);
    if !matches!(from, Place::Object { .. }) {
        return out.push_str("no object");
    }
    push_entries(out, single_removal(alloc, &from))
}
