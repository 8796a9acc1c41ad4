//! The files of the system.

ghost use Rattle.std.specs.Prelude.{◌≡◌, ◌≢◌, ◌≤◌, None};
ghost use Rattle.s3_outside.specs.FileCalls.{HasRisen, NamesFront};

use crate::disk_paths::{names_on_disk, obstacle_on_disk, shape_on_disk};
use crate::disk_sources::DiskReads;
use crate::disk_temps::{DiskTemps, MakeFault};
use s3_outside::{Failed, FileFault, Files, Names, Shape, Temp, blocked, count_fault, fault};
use std::alloc::Global;
use std::fs::{self, FileTimes, OpenFile};
use std::io::{self, ErrorKind};
use std::rt;
use std::time::{Duration, UNIX_EPOCH};

/// The files of the system, of which nothing is seen.
///
/// Links are followed. Only regular files are opened. A file of which `kind` said what it is, is read only while it
/// has that size and that time, when it is opened and after its last piece; else the read is a fault. A destination is
/// never opened for writing. A temporary file never opens what is there, and only the file that was made is written:
/// until it is renamed or dropped. The last file that was read stays open until its last piece.
#[derive(Drop)]
pub struct DiskFiles<R: rt::Files> {
    runtime: R,
    reads: DiskReads<R::File>,
    temps: DiskTemps<R::File>,
    faults: u64,
}

impl<R: rt::Files + AllocGlobal + Clone + Drop> DiskFiles<R> {
    pub fn new(runtime: R) -> DiskFiles<R>
        ensures { ⟦<DiskFiles<R> as Files>⟧.faults result ≡ 0 }
    {
        let reads = DiskReads::new(&runtime);
        let temps = DiskTemps::new(&runtime);
        DiskFiles {
            runtime,
            reads,
            temps,
            faults: 0,
        }
    }

    // What is neither a file nor absent is never replaced.
    fn replace(&mut self, temp: &str, dest: &str) -> io::Result<()>
        ensures faults { self.new.faults ≡ self.old.faults }
    {
        self.temps.close(temp);
        self.reads.forget(dest);
        match shape_on_disk(&self.runtime, dest) {
            Ok(Shape::Absent | Shape::File { .. }) => fs::rename(&self.runtime, temp, dest),
            _ => Err(io::Error::from(ErrorKind::AlreadyExists)),
        }
    }

    fn set_time(&self, path: &str, micros: u64) -> Result<(), Failed> {
        let Ok(Shape::File { .. }) = shape_on_disk(&self.runtime, path) else {
            return Err(Failed);
        };
        let Some(time) = UNIX_EPOCH.checked_add(Duration::from_micros(micros)) else {
            return Err(Failed);
        };
        let Ok(file) = fs::open(&self.runtime, path) else {
            return Err(Failed);
        };
        match file.set_times(FileTimes::new().set_modified(time)) {
            Ok(()) => Ok(()),
            Err(_) => Err(Failed),
        }
    }

    // Why a call did not succeed: what is in the way of its destination, or a fault.
    fn refusal(&mut self, dest: &str) -> FileFault
        ensures front { NamesFront dest.now result }
        ensures memory { result ≢ FileFault.Memory }
        ensures later { self.old.faults ≤ self.new.faults }
        ensures failed { HasRisen self.old.faults self.new.faults result }
    {
        match obstacle_on_disk(&self.runtime, dest) {
            Some(length) => blocked(length, &mut self.faults),
            None => fault(&mut self.faults),
        }
    }
}

impl<R: rt::Files + AllocGlobal + Clone + Drop> Files for DiskFiles<R> {
    ghost seen = { λ _. None };

    ghost faults = { λ f. f.faults };

    /// What is not found, or lies below a file, is absent; a link is what it leads to.
    fn kind(&mut self, path: &str) -> Result<Shape, Failed> {
        match self.reads.look(&self.runtime, path) {
            Ok(shape) => Ok(shape),
            Err(_) => Err(count_fault(&mut self.faults)),
        }
    }

    fn read_at(&mut self, path: &str, at: u64, into: &mut [u8]) -> Result<usize, Failed> {
        match self.reads.read(&self.runtime, path, at, into) {
            Ok(count) => Ok(count),
            Err(_) => Err(count_fault(&mut self.faults)),
        }
    }

    fn names(&mut self, alloc: Global, folder: &str) -> Result<Names, FileFault> {
        match names_on_disk(&self.runtime, alloc, folder) {
            Ok(names) => Ok(names),
            Err(e) if e.kind() == ErrorKind::OutOfMemory => Err(FileFault::Memory),
            Err(_) => Err(fault(&mut self.faults)),
        }
    }

    fn make_temp(&mut self, alloc: Global, dest: &str) -> Result<Temp, FileFault> {
        if let Some(length) = obstacle_on_disk(&self.runtime, dest) {
            return Err(blocked(length, &mut self.faults));
        }
        match self.temps.make(&self.runtime, alloc, dest) {
            Ok(temp) => Ok(temp),
            Err(MakeFault::Memory) => Err(FileFault::Memory),
            Err(_) => Err(self.refusal(dest)),
        }
    }

    fn write_at(&mut self, temp: &Temp, at: u64, bytes: &[u8]) -> Result<(), Failed> {
        match self
            .temps
            .write(&self.runtime, temp.path.as_str(), at, bytes)
        {
            Ok(()) => Ok(()),
            Err(_) => Err(count_fault(&mut self.faults)),
        }
    }

    fn rename(&mut self, temp: Temp, dest: &str) -> Result<(), (Temp, FileFault)> {
        match self.replace(temp.path.as_str(), dest) {
            Ok(()) => Ok(()),
            Err(_) => {
                let refusal = self.refusal(dest);
                Err((temp, refusal))
            }
        }
    }

    fn drop_temp(&mut self, temp: Temp) -> Result<(), Failed> {
        self.temps.close(temp.path.as_str());
        match fs::remove_file(&self.runtime, temp.path.as_str()) {
            Ok(()) => Ok(()),
            Err(_) => Err(count_fault(&mut self.faults)),
        }
    }

    fn remove(&mut self, path: &str) -> Result<(), Failed> {
        self.reads.forget(path);
        match fs::remove_file(&self.runtime, path) {
            Ok(()) => Ok(()),
            Err(_) => Err(count_fault(&mut self.faults)),
        }
    }

    fn stamp(&mut self, path: &str, micros: u64) -> Result<(), Failed> {
        self.reads.forget(path);
        match self.set_time(path, micros) {
            Ok(()) => Ok(()),
            Err(_) => Err(count_fault(&mut self.faults)),
        }
    }
}
