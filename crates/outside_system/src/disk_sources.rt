//! Files of the system that are read.

ghost use Rattle.std.specs.Prelude.{◌≡◌, ◌≤◌, IfOk, length};

use crate::disk_paths::{micros_of, shape_on_disk};
use s3_model::Text;
use s3_outside::{Failed, Shape};
use std::collections::BTreeMap;
use std::fs::{self, Metadata, OpenFile};
use std::io::{self, ErrorKind, Read, Seek, SeekFrom};
use std::rt;

/// How often an interrupted call is made again.
const TRIES: u32 = 1_000_000;

/// The size of a file, in bytes, and its time, in microseconds since 1970.
#[derive(Clone, Copy, PartialEq, Eq)]
struct Look {
    size: u64,
    micros: u64,
}

/// What was seen of files, and the file that was read last, which stays open until its last piece.
#[derive(Drop)]
pub(crate) struct DiskReads<F> {
    looks: BTreeMap<String, Look>,
    source: Option<DiskSource<F>>,
}

impl<F: OpenFile + Read + Seek + Drop> DiskReads<F> {
    pub(crate) fn new<R: AllocGlobal>(runtime: &R) -> DiskReads<F> {
        DiskReads {
            looks: BTreeMap::new(runtime.alloc()),
            source: None,
        }
    }

    /// What stands at a path, which is kept for its reads.
    pub(crate) fn look<R: rt::Files<File = F> + AllocGlobal>(
        &mut self,
        runtime: &R,
        path: &str,
    ) -> Result<Shape, Failed> {
        let Ok(shape) = shape_on_disk(runtime, path) else {
            return Err(Failed);
        };
        if let Shape::File { size, micros } = shape {
            let Ok(owned) = String::from_str(runtime.alloc(), path) else {
                return Err(Failed);
            };
            if self.looks.insert(owned, Look { size, micros }).is_err() {
                return Err(Failed);
            }
        }
        Ok(shape)
    }

    /// Reads from a file. One of which something was seen is read only where it still is that.
    pub(crate) fn read<R: rt::Files<File = F> + AllocGlobal>(
        &mut self,
        runtime: &R,
        path: &str,
        at: u64,
        into: &mut [u8],
    ) -> Result<usize, Failed>
        ensures bound { IfOk result (λ count. count ≤ length into.new) }
        ensures length { length into.new ≡ length into.old }
    {
        let mut source = self.take_source(runtime, path)?;
        match source.read(at, into) {
            Ok(count) if !source.is_last(at, count) => {
                self.source = Some(source);
                Ok(count)
            }
            answer => answer,
        }
    }

    // The file there: the one that is open, or else it is opened.
    fn take_source<R: rt::Files<File = F> + AllocGlobal>(
        &mut self,
        runtime: &R,
        path: &str,
    ) -> Result<DiskSource<F>, Failed> {
        if let Some(open) = self.source.take()
            && open.is_of(path)
        {
            return Ok(open);
        }
        DiskSource::open(runtime, path, self.looks.get(path).copied())
    }

    /// What was seen of a path no longer holds.
    pub(crate) fn forget(&mut self, path: &str) {
        self.looks.remove(path);
        self.source = None;
    }
}

#[derive(Drop)]
struct DiskSource<F> {
    path: Text,
    file: F,
    look: Look,
}

impl<F: OpenFile + Read + Seek + Drop> DiskSource<F> {
    // Opens a regular file, where it still is what was seen of it.
    fn open<R: rt::Files<File = F> + AllocGlobal>(
        runtime: &R,
        path: &str,
        seen: Option<Look>,
    ) -> Result<DiskSource<F>, Failed> {
        let look = look_of(fs::metadata(runtime, path), seen)?;
        let Ok(owned) = Text::of(runtime.alloc(), path) else {
            return Err(Failed);
        };
        let file = open_same(runtime, path, look)?;
        Ok(DiskSource {
            path: owned,
            file,
            look,
        })
    }

    fn is_of(&self, path: &str) -> bool {
        self.path.as_str() == path
    }

    // Reads a piece. A file that has changed since it was opened is a fault behind its last piece.
    fn read(&mut self, at: u64, into: &mut [u8]) -> Result<usize, Failed>
        ensures bound { IfOk result (λ count. count ≤ length into.new) }
        ensures length { length into.new ≡ length into.old }
    {
        if self.file.seek(SeekFrom::Start(at)).is_err() {
            return Err(Failed);
        }
        let count = read_again(&mut self.file, into)?;
        if self.is_last(at, count) {
            look_of(self.file.metadata(), Some(self.look))?;
        }
        Ok(count)
    }

    // Whether so many bytes from that place are the last piece.
    fn is_last(&self, at: u64, count: usize) -> bool {
        count == 0 || at.saturating_add(count as u64) >= self.look.size
    }
}

// Opens a file that looks so.
fn open_same<R: rt::Files>(runtime: &R, path: &str, look: Look) -> Result<R::File, Failed> {
    let Ok(file) = fs::open(runtime, path) else {
        return Err(Failed);
    };
    match look_of(file.metadata(), Some(look)) {
        Ok(_) => Ok(file),
        Err(_) => Err(Failed),
    }
}

fn read_again<F: Read>(file: &mut F, into: &mut [u8]) -> Result<usize, Failed>
    ensures bound { IfOk result (λ count. count ≤ length into.new) }
    ensures length { length into.new ≡ length into.old }
{
    for _ in 0..TRIES {
        match file.read(into) {
            Ok(count) => return Ok(count),
            Err(e) if e.kind() == ErrorKind::Interrupted => {}
            Err(_) => return Err(Failed),
        }
    }
    Err(Failed)
}

// How a regular file looks, where that is what was seen of it.
fn look_of(found: io::Result<Metadata>, seen: Option<Look>) -> Result<Look, Failed> {
    match found {
        Ok(found) if found.is_file() => same_look(&found, seen),
        _ => Err(Failed),
    }
}

fn same_look(found: &Metadata, seen: Option<Look>) -> Result<Look, Failed> {
    let Ok(micros) = micros_of(found) else {
        return Err(Failed);
    };
    let look = Look {
        size: found.len(),
        micros,
    };
    if seen.unwrap_or(look) == look {
        Ok(look)
    } else {
        Err(Failed)
    }
}
