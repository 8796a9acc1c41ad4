//! Calls on files.

use crate::files::assemblies::{drop_first, fill, finish, make, place};
use crate::files::trees::{add_counts, add_list};
use crate::lines::{number, word_and_rest};
use crate::rows::{add, add_came, add_shown};
use s3_model::{OutOfMemory, Texts};
use s3_outside::{Failed, Files, Names, Shape};
use std::alloc::Global;
use temp_files::Assembly;
use text_maps::TextMap;

/// Adds what stands at a path, without its time.
fn add_size<F: Files>(files: &mut F, row: &mut String, path: &str) {
    match files.kind(path) {
        Ok(Shape::File { size, .. }) => add_shown(row, size),
        answer => add_shown(row, answer),
    }
}

/// Adds three bytes from a place on.
fn add_read<F: Files>(files: &mut F, row: &mut String, text: &str) {
    let (at, path) = word_and_rest(text);
    let mut into = [0u8; 3];
    match files.read_at(path, number(at), &mut into) {
        Ok(count) => add_came(row, into.get(..count).unwrap_or(&[])),
        Err(fault) => add_shown(row, fault),
    }
}

/// The names in their order.
fn in_order(alloc: Global, names: &Texts) -> Result<Texts, OutOfMemory> {
    let mut ordered = TextMap::make(alloc);
    for name in names.as_slice() {
        ordered.insert(alloc, name.as_str(), ())?;
    }
    ordered.texts(alloc)
}

fn add_each(row: &mut String, names: &Texts) {
    for name in names.as_slice() {
        add(row, ", ");
        add(row, name.as_str());
    }
}

fn add_found(row: &mut String, alloc: Global, found: &Names) {
    add_shown(row, found.unnamed);
    add(row, " unnamed");
    match in_order(alloc, &found.names) {
        Ok(names) => add_each(row, &names),
        Err(OutOfMemory) => add(row, "no memory"),
    }
}

/// Adds the names in a folder, in order, and how many more there are.
fn add_names<F: Files>(files: &mut F, alloc: Global, row: &mut String, folder: &str) {
    match files.names(alloc, folder) {
        Ok(found) => add_found(row, alloc, &found),
        Err(fault) => add_shown(row, fault),
    }
}

/// Sets the time of a file.
fn stamp<F: Files>(files: &mut F, text: &str) -> Result<(), Failed> {
    let (micros, path) = word_and_rest(text);
    files.stamp(path, number(micros))
}

/// Adds what a call that looks at files answers.
fn look<F: Files>(files: &mut F, alloc: Global, row: &mut String, call: &str) {
    let (name, text) = word_and_rest(call);
    match name {
        "kind" => add_shown(row, files.kind(text)),
        "size" => add_size(files, row, text),
        "read" => add_read(files, row, text),
        "names" => add_names(files, alloc, row, text),
        "walk" => add_counts(files, alloc, row, text),
        "list" => add_list(files, alloc, row, text),
        _ => add(row, "?"),
    }
}

/// Adds what a call answers.
pub(crate) fn add_answer<F: Files>(
    files: &mut F,
    alloc: Global,
    held: &mut Vec<Assembly>,
    row: &mut String,
    call: &str,
) {
    let (name, text) = word_and_rest(call);
    match name {
        "make" => make(files, alloc, held, row, text),
        "place" => place(files, alloc, held, row, text),
        "finish" => finish(files, held, row),
        "drop" => drop_first(files, held, row),
        "fill" => fill(files, alloc, row, text),
        "remove" => add_shown(row, files.remove(text)),
        "stamp" => add_shown(row, stamp(files, text)),
        _ => look(files, alloc, row, call),
    }
}
