//! Calls that look at files in memory, and change nothing.

ghost use Rattle.std.specs.Prelude.{◌≡◌, ◌≤◌, ◌↔◌, length, take, drop, min, IfSome, IfOk, IfErr, OnOk, IsNone};
ghost use Rattle.std.specs.FinMap.{get};
ghost use Rattle.local_files.specs.Names.{AreNames};
ghost use Rattle.s3_outside.specs.Files.{shape_at, Reads};
ghost use Rattle.s3_outside.specs.FileCalls.{HasRisen, IsBlocked, unnamed_in};

use file_table::FileTable;
use s3_outside::{FileFault, Names, Shape, fault};
use std::alloc::Global;

pub(crate) fn shape_in(table: &FileTable, path: &str) -> Shape
    ensures { result ≡ shape_at table.now path.now }
{
    match table.file(path) {
        Some(file) => Shape::File {
            size: file.bytes().len() as u64,
            micros: file.micros(),
        },
        None if table.is_folder(path) => Shape::Folder,
        None if table.is_other(path) => Shape::Other,
        None => Shape::Absent,
    }
}

/// Reads from place `at` of a file to the front of `into`: as many bytes as there are and fit. None where no file
/// stands at the path.
pub(crate) fn read_in(table: &FileTable, path: &str, at: u64, into: &mut [u8]) -> Option<usize>
    ensures bound { IfSome result (λ count. count ≤ length into.new) }
    ensures bytes { IfSome result (Reads table.now path.now at into.new) }
    ensures none { IsNone result ↔ IsNone (get table.now.held path.now) }
{
    let file = table.file(path)?;
    Some(copy_front(bytes_from(file.bytes(), at), into))
}

fn bytes_from(bytes: &[u8], at: u64) -> &[u8]
    ensures { result.now ≡ drop at bytes.now }
{
    bytes.get(at as usize..).unwrap_or(&[])
}

// Copies what fits to the front of `into`, and answers how many bytes that is.
fn copy_front(bytes: &[u8], into: &mut [u8]) -> usize
    ensures count { result ≡ min (length bytes.now) (length into.new) }
    ensures copied { take result into.new ≡ take result bytes.now }
{
    let count = bytes.len().min(into.len());
    into[..count].copy_from_slice(&bytes[..count]);
    count
}

/// The names in a folder of the table. What is no folder is a fault.
pub(crate) fn names_in(
    table: &FileTable,
    faults: &mut u64,
    alloc: Global,
    is_failing: bool,
    folder: &str,
) -> Result<Names, FileFault>
    ensures names { IfOk result (λ found. AreNames table.now folder.now found.names.items) }
    ensures unnamed { IfOk result (λ found. found.unnamed ≡ unnamed_in table.now folder.now) }
    ensures folder { OnOk result (shape_at table.now folder.now ≡ Shape.Folder) }
    ensures free { IfErr result (λ why. IsBlocked why → ⊥) }
    ensures later { faults.old ≤ faults.new }
    ensures failed { IfErr result (HasRisen faults.old faults.new) }
{
    if is_failing || shape_in(table, folder) != Shape::Folder {
        return Err(fault(faults));
    }
    match table.names(alloc, folder) {
        Ok(names) => Ok(Names {
            names,
            unnamed: table.unnamed(folder),
        }),
        Err(_) => Err(FileFault::Memory),
    }
}
