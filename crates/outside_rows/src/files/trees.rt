//! Walks over trees of files.

use crate::rows::{add, add_number, add_shown};
use s3_model::{Entries, Entry, Texts};
use s3_outside::Files;
use std::alloc::Global;
use std::mem;
use tree_walk::{Walked, walk};

fn bytes_of(entries: &Entries) -> u64 {
    let mut bytes: u64 = 0;
    for entry in entries.as_slice() {
        bytes = bytes.saturating_add(entry.size);
    }
    bytes
}

fn add_counts_of(row: &mut String, walked: &Walked) {
    add_shown(row, walked.entries.len());
    add_number(row, walked.others.len() as u64);
    add_number(row, walked.unnamed);
    add_number(row, bytes_of(&walked.entries));
}

/// Adds how many files, other paths and names that are no text a tree has, and how many bytes.
pub(crate) fn add_counts<F: Files>(files: &mut F, alloc: Global, row: &mut String, root: &str) {
    match walk(alloc, files, root) {
        Ok(walked) => {
            add_counts_of(row, &walked);
            mem::drop(walked);
        }
        Err(fault) => add_shown(row, fault),
    }
}

fn add_entry(row: &mut String, entry: &Entry) {
    add(row, entry.key.as_str());
    add_number(row, entry.size);
    add_number(row, entry.micros);
    add(row, ", ");
}

fn add_entries(row: &mut String, entries: &Entries) {
    for entry in entries.as_slice() {
        add_entry(row, entry);
    }
}

fn add_others(row: &mut String, others: &Texts) {
    for path in others.as_slice() {
        add(row, "other ");
        add(row, path.as_str());
        add(row, ", ");
    }
}

fn add_walked(row: &mut String, walked: &Walked) {
    add_entries(row, &walked.entries);
    add_others(row, &walked.others);
    add_shown(row, walked.unnamed);
    add(row, " unnamed");
}

/// Adds the files of a tree with size and time, the other paths, and how many names are no text.
pub(crate) fn add_list<F: Files>(files: &mut F, alloc: Global, row: &mut String, root: &str) {
    match walk(alloc, files, root) {
        Ok(walked) => {
            add_walked(row, &walked);
            mem::drop(walked);
        }
        Err(fault) => add_shown(row, fault),
    }
}
