//! Files in memory, as a line spells them.

use crate::bytes::copied;
use crate::lines::{count, field_and_rest, number, numbers, push};
use outside_memory::{FileTable, MemFile, MemFiles};
use s3_model::OutOfMemory;
use std::alloc::Global;
use std::mem;

/// The time of each file that is spelled.
const MICROS: u64 = 7;

pub(crate) fn empty_files(alloc: Global) -> MemFiles {
    MemFiles::make(
        alloc,
        FileTable::make(alloc),
        Vec::new(alloc),
        Vec::new(alloc),
    )
}

pub(crate) fn files_of(alloc: Global, text: &str) -> Result<MemFiles, OutOfMemory> {
    let (calls, items) = field_and_rest(text);
    let table = table_of(alloc, items)?;
    let failing = numbers(alloc, calls);
    let short = short_reads(alloc, calls);
    Ok(MemFiles::make(alloc, table, failing, short))
}

fn short_reads(alloc: Global, text: &str) -> Vec<(usize, usize)> {
    let mut short = Vec::new(alloc);
    for piece in text.split(',') {
        if let Some((call, most)) = piece.split_once('x') {
            push(&mut short, (count(call), count(most)));
        }
    }
    short
}

fn put_all(alloc: Global, table: &mut FileTable, items: &str) -> Result<(), OutOfMemory> {
    for item in items.split(" | ") {
        if !item.is_empty() {
            put(alloc, table, item)?;
        }
    }
    Ok(())
}

fn table_of(alloc: Global, items: &str) -> Result<FileTable, OutOfMemory> {
    let mut table = FileTable::make(alloc);
    match put_all(alloc, &mut table, items) {
        Ok(()) => Ok(table),
        Err(OutOfMemory) => {
            mem::drop(table);
            Err(OutOfMemory)
        }
    }
}

fn file(bytes: Vec<u8>) -> MemFile {
    MemFile::new(bytes, MICROS)
}

fn put_file(
    alloc: Global,
    table: &mut FileTable,
    path: &str,
    text: &str,
) -> Result<(), OutOfMemory> {
    table.put_file(alloc, path, file(copied(alloc, text.as_bytes())))
}

fn put(alloc: Global, table: &mut FileTable, item: &str) -> Result<(), OutOfMemory> {
    if let Some((path, text)) = item.split_once('=') {
        return put_file(alloc, table, path, text);
    }
    if let Some((folder, names)) = item.split_once('?') {
        return table.set_unnamed(alloc, folder, number(names));
    }
    if let Some((folder, names)) = item.split_once('*') {
        return put_many(alloc, table, folder, number(names));
    }
    put_other(alloc, table, item)
}

fn put_other(alloc: Global, table: &mut FileTable, item: &str) -> Result<(), OutOfMemory> {
    match item.strip_suffix("/") {
        Some(folder) => table.add_folder(alloc, folder),
        None => table.add_other(alloc, item),
    }
}

fn put_many(
    alloc: Global,
    table: &mut FileTable,
    folder: &str,
    count: u64,
) -> Result<(), OutOfMemory> {
    for index in 0..count {
        let path = format!(in alloc; "{folder}/{index}")?;
        table.put_file(alloc, path.as_str(), file(Vec::new(alloc)))?;
    }
    Ok(())
}
