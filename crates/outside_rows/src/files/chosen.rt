//! The files that calls go to.

use crate::files::calls;
use crate::files::memory::{empty_files, files_of};
use crate::lines::word_and_rest;
use crate::rows::{add_done, add_shown};
use outside_memory::MemFiles;
use outside_system::DiskFiles;
use std::alloc::{AllocError, Global};
use std::{fs, io, mem};
use temp_files::Assembly;

/// Files in memory and of the system, which of them calls go to, and what is put together there.
#[derive(Drop)]
pub(crate) struct Chosen {
    memory: MemFiles,
    disk: DiskFiles<HostRuntime>,
    is_disk: bool,
    held: Vec<Assembly>,
}

fn put(rt: &HostRuntime, text: &str) -> io::Result<()> {
    let (path, bytes) = word_and_rest(text);
    fs::write(rt, path, bytes)
}

impl Chosen {
    pub(crate) fn make(rt: &HostRuntime) -> io::Result<Chosen> {
        let disk = DiskFiles::new(rt.clone()?);
        Ok(Chosen {
            memory: empty_files(rt.alloc()),
            disk,
            is_disk: false,
            held: Vec::new(rt.alloc()),
        })
    }

    /// Adds what a line comes to.
    pub(crate) fn add_answer(&mut self, rt: &HostRuntime, row: &mut String, line: &str) {
        let (name, text) = word_and_rest(line);
        match name {
            "memory" => add_done(row, self.use_memory(rt.alloc(), text)),
            "disk" => add_done(row, self.use_disk()),
            "put" => add_done(row, put(rt, text)),
            "folder" => add_done(row, fs::create_dir_all(rt, text)),
            "clear" => add_done(row, fs::remove_dir_all(rt, text)),
            _ => self.call(rt.alloc(), row, line),
        }
    }

    fn use_memory(&mut self, alloc: Global, text: &str) -> io::Result<()> {
        let Ok(memory) = files_of(alloc, text) else {
            return Err(AllocError.into());
        };
        let before = mem::replace(&mut self.memory, memory);
        mem::drop(before);
        self.is_disk = false;
        self.held.clear();
        Ok(())
    }

    fn use_disk(&mut self) -> io::Result<()> {
        self.is_disk = true;
        self.held.clear();
        Ok(())
    }

    fn call(&mut self, alloc: Global, row: &mut String, line: &str) {
        if self.is_disk {
            calls::add_answer(&mut self.disk, alloc, &mut self.held, row, line);
        } else {
            self.call_memory(alloc, row, line);
        }
    }

    fn call_memory(&mut self, alloc: Global, row: &mut String, line: &str) {
        let (name, path) = word_and_rest(line);
        match name {
            "calls" => add_shown(row, self.memory.calls().len()),
            "held" => add_shown(row, self.memory.table().file(path).is_some()),
            _ => calls::add_answer(&mut self.memory, alloc, &mut self.held, row, line),
        }
    }
}
