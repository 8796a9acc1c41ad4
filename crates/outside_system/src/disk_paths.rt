//! What stands at paths of the system.

ghost use Rattle.std.specs.Prelude.{◌≡◌, ◌≤◌, IfSome, IsCharBoundary, IsTrue, length};

use s3_model::{Text, Texts};
use s3_outside::{Names, Shape};
use std::alloc::Global;
use std::fs::{self, DirEntry, Metadata};
use std::io::{self, ErrorKind};
use std::rt;
use std::time::UNIX_EPOCH;

pub(crate) fn shape_on_disk(runtime: &impl rt::Files, path: &str) -> io::Result<Shape> {
    match fs::metadata(runtime, path) {
        Ok(found) if found.is_dir() => Ok(Shape::Folder),
        Ok(found) if found.is_file() => Ok(Shape::File {
            size: found.len(),
            micros: micros_of(&found)?,
        }),
        Ok(_) => Ok(Shape::Other),
        Err(e) if is_absent(e.kind()) => Ok(Shape::Absent),
        Err(e) => Err(e),
    }
}

pub(crate) fn is_absent(kind: ErrorKind) -> bool {
    kind == ErrorKind::NotFound || kind == ErrorKind::NotADirectory
}

// The time of the last change, in microseconds since 1970, cut down; 0 where it was before.
pub(crate) fn micros_of(found: &Metadata) -> io::Result<u64> {
    let micros = found
        .modified()?
        .duration_since(UNIX_EPOCH)
        .map_or(0, |since| since.as_micros());
    Ok(u64::try_from(micros).unwrap_or(u64::MAX))
}

/// The names in a folder. Those that are no text are counted.
pub(crate) fn names_on_disk<R: rt::Files + AllocGlobal + Clone + Drop>(
    runtime: &R,
    alloc: Global,
    folder: &str,
) -> io::Result<Names> {
    let entries = fs::read_dir(runtime, folder)?;
    let mut found = Names {
        names: Texts::make(alloc),
        unnamed: 0,
    };
    for entry in entries {
        add_entry(alloc, &mut found, entry)?;
    }
    Ok(found)
}

fn add_entry<R: rt::Files + Drop>(
    alloc: Global,
    found: &mut Names,
    entry: io::Result<DirEntry<R>>,
) -> io::Result<()> {
    match entry {
        Ok(entry) => add_name(alloc, &mut found.names, entry.file_name()),
        Err(e) if e.kind() == ErrorKind::InvalidFilename => {
            found.unnamed = found.unnamed.saturating_add(1);
            Ok(())
        }
        Err(e) => Err(e),
    }
}

fn add_name(alloc: Global, names: &mut Texts, name: &str) -> io::Result<()> {
    if names.reserve(1).is_err() {
        return Err(io::Error::from(ErrorKind::OutOfMemory));
    }
    let Ok(name) = Text::of(alloc, name) else {
        return Err(io::Error::from(ErrorKind::OutOfMemory));
    };
    names.push(name);
    Ok(())
}

/// Makes the folders of a destination that are missing. One that is neither file nor folder is a fault.
pub(crate) fn make_way(runtime: &impl rt::Files, dest: &str) -> io::Result<()> {
    if shape_on_disk(runtime, dest)? == Shape::Other {
        return Err(io::Error::from(ErrorKind::AlreadyExists));
    }
    make_folders(runtime, dest)
}

fn make_folders(runtime: &impl rt::Files, path: &str) -> io::Result<()> {
    match path.rsplit_once('/') {
        Some((folder, _)) => fs::create_dir_all(runtime, folder),
        None => Ok(()),
    }
}

/// What is in the way of a destination, by the length of its path: a folder at its place, or a file above it.
pub(crate) fn obstacle_on_disk(runtime: &impl rt::Files, dest: &str) -> Option<usize>
    ensures bound { IfSome result (λ n. n ≤ length dest.now) }
    ensures boundary { IfSome result (IsCharBoundary dest.now) }
{
    for end in 1..dest.len() {
        if dest.as_bytes()[end] == b'/' && is_file_front(runtime, dest, end) {
            return Some(end);
        }
    }
    match fs::metadata(runtime, dest) {
        Ok(found) if found.is_dir() => Some(dest.len()),
        _ => None,
    }
}

// Whether the first bytes of the path name a file.
fn is_file_front(runtime: &impl rt::Files, path: &str, end: usize) -> bool
    ensures { IsTrue result → IsCharBoundary path.now end }
{
    let Some((front, _)) = path.split_at_checked(end) else {
        return false;
    };
    match fs::metadata(runtime, front) {
        Ok(found) => found.is_file(),
        Err(_) => false,
    }
}
