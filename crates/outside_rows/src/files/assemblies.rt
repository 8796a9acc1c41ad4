//! Files that are put together.

ghost use Rattle.std.specs.Prelude.{◌≡◌, ◌≢◌, ◌++◌, ◌∷◌, [], Err, IfErr};
ghost use Rattle.temp_files.specs.Assembly.{BothSeen};

use crate::lines::{count, number, push, word_and_rest};
use crate::rows::{add, add_shown};
use s3_model::{Bytes, OutOfMemory, Part};
use s3_outside::{Failed, FileFault, FileNote, Files};
use std::alloc::Global;
use temp_files::Assembly;

/// Holds a file that was begun, and adds the path of its temporary file.
fn hold(row: &mut String, held: &mut Vec<Assembly>, assembly: Assembly) {
    add(row, assembly.temp());
    push(held, assembly);
}

/// Begins a file. Where it cannot be begun and memory did not run out, the call that failed stands last among those that
/// files were asked for.
fn begin<F: Files>(
    files: &mut F,
    alloc: Global,
    dest: &str,
    size: u64,
) -> Result<Assembly, FileFault>
    ensures { BothSeen (F.seen files.old) (F.seen files.new) (λ old new. IfErr result (λ why. why ≢ FileFault.Memory
        → new.calls ≡ old.calls ++ FileNote.MakeTemp dest.now (Err why) ∷ [])) }
{
    Assembly::make(alloc, files, dest, size)
}

/// Begins a file of so many bytes, and adds the path of its temporary file.
pub(crate) fn make<F: Files>(
    files: &mut F,
    alloc: Global,
    held: &mut Vec<Assembly>,
    row: &mut String,
    text: &str,
) {
    let (size, dest) = word_and_rest(text);
    match begin(files, alloc, dest, number(size)) {
        Ok(assembly) => hold(row, held, assembly),
        Err(fault) => add_shown(row, fault),
    }
}

fn part_of(alloc: Global, bytes: &[u8]) -> Result<Part, OutOfMemory> {
    let mut part = Bytes::make(alloc, bytes.len() as u64)?;
    part.add(bytes);
    Ok(Part { bytes: part })
}

// None where the bytes do not fit.
fn place_part<F: Files>(
    files: &mut F,
    assembly: &mut Assembly,
    at: u64,
    part: &Part,
) -> Option<Result<(), Failed>> {
    let left = assembly.size().checked_sub(at)?;
    if left < part.bytes.as_slice().len() as u64 {
        return None;
    }
    Some(assembly.place(files, at, part))
}

// Places a part in the file that was made first.
fn place_first<F: Files>(
    files: &mut F,
    held: &mut Vec<Assembly>,
    row: &mut String,
    at: u64,
    part: &Part,
) {
    let Some(assembly) = held.first_mut() else {
        return add(row, "?");
    };
    match place_part(files, assembly, at, part) {
        Some(answer) => add_shown(row, answer),
        None => add(row, "too long"),
    }
}

/// Writes bytes at a place, where they fit.
pub(crate) fn place<F: Files>(
    files: &mut F,
    alloc: Global,
    held: &mut Vec<Assembly>,
    row: &mut String,
    text: &str,
) {
    let (at, text) = word_and_rest(text);
    match part_of(alloc, text.as_bytes()) {
        Ok(part) => place_first(files, held, row, number(at), &part),
        Err(OutOfMemory) => add(row, "no memory"),
    }
}

fn take_first(held: &mut Vec<Assembly>) -> Option<Assembly> {
    if held.is_empty() {
        return None;
    }
    Some(held.remove(0))
}

// Holds the file again, and says why it was not finished.
fn hold_again(row: &mut String, held: &mut Vec<Assembly>, assembly: Assembly, fault: FileFault) {
    add_shown(row, fault);
    if held.insert(0, assembly).is_err() {
        row.clear();
    }
}

/// Puts the file in the place of its destination; where it was not, it is still held.
pub(crate) fn finish<F: Files>(files: &mut F, held: &mut Vec<Assembly>, row: &mut String) {
    let Some(assembly) = take_first(held) else {
        return add(row, "?");
    };
    match assembly.finish(files) {
        Ok(()) => add(row, "Ok(())"),
        Err((assembly, fault)) => hold_again(row, held, assembly, fault),
    }
}

/// Takes the temporary file away.
pub(crate) fn drop_first<F: Files>(files: &mut F, held: &mut Vec<Assembly>, row: &mut String) {
    match take_first(held) {
        Some(assembly) => add_shown(row, assembly.drop_it(files)),
        None => add(row, "?"),
    }
}

// Writes what of the part still has room behind a place; how many bytes these are.
fn place_next<F: Files>(
    files: &mut F,
    assembly: &mut Assembly,
    at: u64,
    part: &mut Part,
) -> Result<u64, Failed> {
    let left = assembly.size().saturating_sub(at);
    if left < part.bytes.as_slice().len() as u64 {
        part.bytes.truncate(left as usize);
    }
    let length = part.bytes.as_slice().len() as u64;
    if length > 0 {
        assembly.place(files, at, part)?;
    }
    Ok(length)
}

// Writes the part again and again, to the end of the file.
fn place_all<F: Files>(
    files: &mut F,
    assembly: &mut Assembly,
    part: &mut Part,
) -> Result<(), Failed> {
    let mut at: u64 = 0;
    for _ in 0..u64::MAX {
        let length = place_next(files, assembly, at, part)?;
        if length == 0 {
            return Ok(());
        }
        at = at.saturating_add(length);
    }
    Ok(())
}

// Places all and puts the file in its place, or gives it back with the name of what was not done.
fn put_together<F: Files>(
    files: &mut F,
    mut assembly: Assembly,
    part: &mut Part,
) -> Result<(), (Assembly, &'static str)> {
    if place_all(files, &mut assembly, part).is_err() {
        return Err((assembly, "place"));
    }
    match assembly.finish(files) {
        Ok(()) => Ok(()),
        Err((assembly, _)) => Err((assembly, "finish")),
    }
}

fn fill_with<F: Files>(
    files: &mut F,
    assembly: Assembly,
    part: &mut Part,
) -> Result<(), &'static str> {
    let Err((assembly, what)) = put_together(files, assembly, part) else {
        return Ok(());
    };
    match assembly.drop_it(files) {
        Ok(()) => Err(what),
        Err(_) => Err("drop"),
    }
}

// A part of so many zeros.
fn zeros(alloc: Global, length: &str) -> Result<Part, OutOfMemory> {
    let bytes = vec![in alloc; 0u8; count(length)]?;
    part_of(alloc, &bytes)
}

/// Puts a file of zeros together from pieces, and names what was not done.
pub(crate) fn fill<F: Files>(files: &mut F, alloc: Global, row: &mut String, text: &str) {
    let (size, rest) = word_and_rest(text);
    let (piece, dest) = word_and_rest(rest);
    let Ok(mut part) = zeros(alloc, piece) else {
        return add(row, "no memory");
    };
    match begin(files, alloc, dest, number(size)) {
        Ok(assembly) => add_shown(row, fill_with(files, assembly, &mut part)),
        Err(fault) => add_shown(row, fault),
    }
}
