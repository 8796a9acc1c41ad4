//! Temporary files of the system.

ghost use Rattle.std.specs.Prelude.{◌<◌, ◌≢◌, IfOk, IfSome, vec_len};
ghost use Rattle.s3_outside.specs.FileCalls.{IsTempPath};

use crate::disk_paths::make_way;
use s3_model::OutOfMemory;
use s3_outside::{Failed, Temp, temp_path};
use std::alloc::Global;
use std::collections::BTreeMap;
use std::fs::{self, Metadata, OpenFile, OpenOptions};
use std::io::{self, ErrorKind, Seek, SeekFrom, Write};
use std::os::unix::fs::MetadataExt;
use std::{mem, rt};

/// How many temporary files are open at once.
const MOST_OPEN: usize = 64;

/// Which file it is, whatever its name.
#[derive(Clone, Copy)]
struct Node {
    device: u64,
    inode: u64,
}

/// Why no temporary file was made.
#[derive(Clone, Copy)]
pub(crate) enum MakeFault {
    /// Something is there.
    Taken,
    Memory,
    Failed,
}

impl From<io::Error> for MakeFault {
    fn from(error: io::Error) -> MakeFault {
        let kind = error.kind();
        if kind == ErrorKind::AlreadyExists {
            MakeFault::Taken
        } else if kind == ErrorKind::OutOfMemory {
            MakeFault::Memory
        } else {
            MakeFault::Failed
        }
    }
}

#[derive(Drop)]
struct OpenTemp<F> {
    path: String,
    file: F,
}

/// The temporary files that were made. Those that were opened last stay open; another one is opened again by its name,
/// where the file that was made still has it.
#[derive(Drop)]
pub(crate) struct DiskTemps<F> {
    made: BTreeMap<String, Node>,
    open: Vec<OpenTemp<F>>,
    drawn: u32,
}

impl<F: OpenFile + Write + Seek + Drop> DiskTemps<F> {
    pub(crate) fn new<R: AllocGlobal>(runtime: &R) -> DiskTemps<F> {
        DiskTemps {
            made: BTreeMap::new(runtime.alloc()),
            open: Vec::new(runtime.alloc()),
            drawn: 0,
        }
    }

    /// An empty file beside the destination, at a path where nothing was.
    pub(crate) fn make<R: rt::Files<File = F> + AllocGlobal>(
        &mut self,
        runtime: &R,
        alloc: Global,
        dest: &str,
    ) -> Result<Temp, MakeFault>
        ensures path { IfOk result (λ temp. IsTempPath dest.now temp.path) }
        ensures apart { IfOk result (λ temp. temp.path ≢ dest.now) }
    {
        make_way(runtime, dest)?;
        for _ in 0..u32::MAX {
            match self.draw(runtime, alloc, dest) {
                Err(MakeFault::Taken) => {}
                made => return made,
            }
        }
        Err(MakeFault::Taken)
    }

    // The same at the path with the next number.
    fn draw<R: rt::Files<File = F> + AllocGlobal>(
        &mut self,
        runtime: &R,
        alloc: Global,
        dest: &str,
    ) -> Result<Temp, MakeFault>
        ensures path { IfOk result (λ temp. IsTempPath dest.now temp.path) }
        ensures apart { IfOk result (λ temp. temp.path ≢ dest.now) }
    {
        let Ok(path) = temp_path(alloc, dest, self.drawn) else {
            return Err(MakeFault::Memory);
        };
        self.drawn = self.drawn.wrapping_add(1);
        if path.as_str() == dest {
            return Err(MakeFault::Taken);
        }
        match self.create(runtime, path.as_str()) {
            Ok(()) => Ok(Temp { path }),
            Err(fault) => Err(fault),
        }
    }

    // What is there is never opened.
    fn create<R: rt::Files<File = F> + AllocGlobal>(
        &mut self,
        runtime: &R,
        path: &str,
    ) -> Result<(), MakeFault> {
        let mut options = OpenOptions::new();
        options.write(true).create_new(true);
        let file = options.open(runtime, path)?;
        let kept = self.keep(runtime.alloc(), path, file);
        if kept.is_err() {
            let _ = fs::remove_file(runtime, path);
        }
        kept
    }

    fn keep(&mut self, alloc: Global, path: &str, file: F) -> Result<(), MakeFault> {
        let node = node_of(&file)?;
        let Ok(owned) = String::from_str(alloc, path) else {
            return Err(MakeFault::Memory);
        };
        if self.made.insert(owned, node).is_err() {
            return Err(MakeFault::Memory);
        }
        match self.keep_open(alloc, path, file) {
            Ok(()) => Ok(()),
            Err(OutOfMemory) => Err(MakeFault::Memory),
        }
    }

    // Closes the file that was opened first, where too many are open.
    fn keep_open(&mut self, alloc: Global, path: &str, file: F) -> Result<(), OutOfMemory> {
        let Ok(path) = String::from_str(alloc, path) else {
            return Err(OutOfMemory);
        };
        if self.open.len() >= MOST_OPEN {
            mem::drop(self.open.remove(0));
        }
        match self.open.push(OpenTemp { path, file }) {
            Ok(()) => Ok(()),
            Err(_) => Err(OutOfMemory),
        }
    }

    /// Writes only into a file that was made here.
    pub(crate) fn write<R: rt::Files<File = F> + AllocGlobal>(
        &mut self,
        runtime: &R,
        path: &str,
        at: u64,
        bytes: &[u8],
    ) -> Result<(), Failed> {
        if self.place_of(path).is_none() {
            self.open_again(runtime, path)?;
        }
        match self.place_of(path) {
            Some(place) => write_all_at(&mut self.open[place].file, at, bytes),
            None => Err(Failed),
        }
    }

    // Where a file stands among the open ones.
    fn place_of(&self, path: &str) -> Option<usize>
        ensures { IfSome result (λ place. place < vec_len self.now.open) }
    {
        for (place, open) in self.open.iter().enumerate() {
            if open.path.as_str() == path {
                return Some(place);
            }
        }
        None
    }

    // Another file of that name is no longer opened, and is never written.
    fn open_again<R: rt::Files<File = F> + AllocGlobal>(
        &mut self,
        runtime: &R,
        path: &str,
    ) -> Result<(), Failed> {
        let Some(node) = self.made.get(path).copied() else {
            return Err(Failed);
        };
        let file = open_same(runtime, path, node)?;
        match self.keep_open(runtime.alloc(), path, file) {
            Ok(()) => Ok(()),
            Err(OutOfMemory) => Err(Failed),
        }
    }

    /// Closes a file, which is written no more.
    pub(crate) fn close(&mut self, path: &str) {
        self.made.remove(path);
        if let Some(place) = self.place_of(path) {
            mem::drop(self.open.remove(place));
        }
    }
}

// Opens a file for writing, where it still is that one.
fn open_same<R: rt::Files>(runtime: &R, path: &str, node: Node) -> Result<R::File, Failed> {
    if !is_node(fs::symlink_metadata(runtime, path), node) {
        return Err(Failed);
    }
    let mut options = OpenOptions::new();
    options.write(true);
    match options.open(runtime, path) {
        Ok(file) if is_node(file.metadata(), node) => Ok(file),
        _ => Err(Failed),
    }
}

fn write_all_at<F: Write + Seek>(file: &mut F, at: u64, bytes: &[u8]) -> Result<(), Failed> {
    if file.seek(SeekFrom::Start(at)).is_err() || file.write_all(bytes).is_err() {
        return Err(Failed);
    }
    Ok(())
}

// What is no regular file is a fault.
fn node_of<F: OpenFile>(file: &F) -> Result<Node, MakeFault> {
    match file.metadata() {
        Ok(found) if found.is_file() => Ok(Node {
            device: found.dev(),
            inode: found.ino(),
        }),
        Err(e) if e.kind() == ErrorKind::OutOfMemory => Err(MakeFault::Memory),
        _ => Err(MakeFault::Failed),
    }
}

// Whether a regular file was found that is that one.
fn is_node(found: io::Result<Metadata>, node: Node) -> bool {
    match found {
        Ok(found) => { found.is_file() && found.dev() == node.device && found.ino() == node.inode }
        Err(_) => false,
    }
}
