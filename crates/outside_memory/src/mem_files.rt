//! Local files in memory, with a list of the calls on them.

ghost use Rattle.std.specs.Prelude.{◌≡◌, ◌≢◌, ◌≤◌, ◌⊎◌, [], Some, None, OnErr, IfOk, IfSome, true};
ghost use Rattle.s3_model.specs.Counts.{Rose};
ghost use Rattle.s3_outside.specs.Seen.{IsSeenAfter};
ghost use Rattle.s3_outside.specs.Files.{called};

use crate::file_notes::{
    drop_note, kind_note, make_note, names_note, read_note, remove_note, rename_note, stamp_note,
    write_note,
};
use crate::table_calls::{names_in, read_in, shape_in};
use crate::table_changes::{make_in, remove_in, rename_in, stamp_in, write_in};
use file_table::FileTable;
use s3_model::OutOfMemory;
use s3_outside::{Failed, FileFault, FileNote, Files, Names, Shape, Temp, count_fault};
use std::alloc::Global;
use std::mem;

/// Files in memory. The calls of `failing` fail, and the reads of `short` answer at most so many bytes; calls are
/// counted from 0. The numbers in the names of temporary files are drawn from 0 on, in one row over all calls; one
/// whose path is taken, or is the destination, is passed over. Files and calls are seen as long as there is memory for
/// them, but never where a read is short.
#[derive(Drop)]
pub struct MemFiles {
    alloc: Global,
    table: FileTable,
    calls: Vec<FileNote>,
    is_seen: bool,
    failing: Vec<usize>,
    short: Vec<(usize, usize)>,
    drawn: u32,
    count: usize,
    faults: u64,
}

impl MemFiles {
    ghost use Rattle.outside_memory.specs.MemFiles.{seen_files};

    pub fn make(
        alloc: Global,
        table: FileTable,
        failing: Vec<usize>,
        short: Vec<(usize, usize)>,
    ) -> MemFiles
        ensures seen { short.items ≡ [] →
            ⟦<MemFiles as Files>⟧.seen result ≡ Some (record { store = table; calls = [] }) }
        ensures silent { short.items ≢ [] → ⟦<MemFiles as Files>⟧.seen result ≡ None }
        ensures faults { ⟦<MemFiles as Files>⟧.faults result ≡ 0 }
    {
        MemFiles {
            alloc,
            table,
            calls: Vec::new(alloc),
            is_seen: short.is_empty(),
            failing,
            short,
            drawn: 0,
            count: 0,
            faults: 0,
        }
    }

    /// The files.
    pub fn table(&self) -> &FileTable
        ensures { IfSome (⟦<MemFiles as Files>⟧.seen self.now) (λ files. files.store ≡ result.now) }
    {
        &self.table
    }

    /// The calls so far, in order.
    pub fn calls(&self) -> &[FileNote]
        ensures { IfSome (⟦<MemFiles as Files>⟧.seen self.now) (λ files. files.calls ≡ result.now) }
    {
        &self.calls
    }

    // The number of this call, and whether it is listed to fail.
    fn next_call(&mut self) -> (usize, bool)
        ensures table { self.new.table ≡ self.old.table }
        ensures calls { self.new.calls.items ≡ self.old.calls.items }
        ensures told { self.new.is_seen ≡ self.old.is_seen }
        ensures faults { self.new.faults ≡ self.old.faults }
    {
        let number = self.count;
        self.count = self.count.saturating_add(1);
        (number, self.failing.contains(&number))
    }

    // The most bytes that a read with that room gives.
    fn most(&self, number: usize, room: usize) -> usize
        ensures bound { result ≤ room }
        ensures whole { self.now.is_seen ≡ true → result ≡ room }
    {
        if !self.is_seen {
            for (call, most) in &self.short {
                if *call == number {
                    return room.min(*most);
                }
            }
        }
        room
    }

    // Adds a call to the list.
    fn record(&mut self, call: Result<FileNote, OutOfMemory>)
        ensures seen { IfOk call (λ note. IsSeenAfter (called note) (⟦<MemFiles as Files>⟧.seen self.old)
            (⟦<MemFiles as Files>⟧.seen self.new) self.old.faults self.new.faults) }
        ensures none { OnErr call (⟦<MemFiles as Files>⟧.seen self.new ≡ None) }
        ensures rose { OnErr call ((⟦<MemFiles as Files>⟧.seen self.old ≡ None) ⊎
            Rose self.old.faults self.new.faults) }
        ensures later { self.old.faults ≤ self.new.faults }
    {
        if !self.is_seen {
            mem::drop(call);
            return;
        }
        let added = match call {
            Ok(note) => {
                let pushed = self.calls.push(note);
                let is_pushed = pushed.is_ok();
                mem::drop(pushed);
                is_pushed
            }
            Err(OutOfMemory) => false,
        };
        if !added {
            self.is_seen = false;
            count_fault(&mut self.faults);
        }
    }
}

impl Files for MemFiles {
    ghost use Rattle.outside_memory.specs.MemFiles.{seen_files};

    ghost seen = { λ f. seen_files f.is_seen f.table f.calls.items };

    ghost faults = { λ f. f.faults };

    fn kind(&mut self, path: &str) -> Result<Shape, Failed> {
        let (_, is_failing) = self.next_call();
        let answer = if is_failing {
            Err(count_fault(&mut self.faults))
        } else {
            Ok(shape_in(&self.table, path))
        };
        self.record(kind_note(self.alloc, path, answer));
        answer
    }

    fn read_at(&mut self, path: &str, at: u64, into: &mut [u8]) -> Result<usize, Failed> {
        let (number, is_failing) = self.next_call();
        let room = into.len();
        let most = self.most(number, room);
        let answer = match read_in(&self.table, path, at, &mut into[..most]) {
            Some(count) if !is_failing => Ok(count),
            _ => Err(count_fault(&mut self.faults)),
        };
        self.record(read_note(self.alloc, path, at, room, answer));
        answer
    }

    fn names(&mut self, alloc: Global, folder: &str) -> Result<Names, FileFault> {
        let (_, is_failing) = self.next_call();
        let answer = names_in(&self.table, &mut self.faults, alloc, is_failing, folder);
        let fault = match &answer {
            Ok(_) => None,
            Err(fault) => Some(*fault),
        };
        self.record(names_note(self.alloc, folder, fault));
        answer
    }

    fn make_temp(&mut self, alloc: Global, dest: &str) -> Result<Temp, FileFault> {
        let (_, is_failing) = self.next_call();
        let answer = make_in(
            &mut self.table,
            &mut self.drawn,
            &mut self.faults,
            alloc,
            is_failing,
            dest,
        );
        self.record(make_note(self.alloc, dest, &answer));
        answer
    }

    fn write_at(&mut self, temp: &Temp, at: u64, bytes: &[u8]) -> Result<(), Failed> {
        let (_, is_failing) = self.next_call();
        let path = temp.path.as_str();
        let answer = write_in(
            &mut self.table,
            &mut self.faults,
            self.alloc,
            is_failing,
            path,
            at,
            bytes,
        );
        self.record(write_note(self.alloc, path, at, bytes, answer));
        answer
    }

    fn rename(&mut self, temp: Temp, dest: &str) -> Result<(), (Temp, FileFault)> {
        let (_, is_failing) = self.next_call();
        let path = temp.path.as_str();
        let answer = rename_in(
            &mut self.table,
            &mut self.faults,
            self.alloc,
            is_failing,
            path,
            dest,
        );
        self.record(rename_note(self.alloc, path, dest, answer));
        match answer {
            Ok(()) => Ok(()),
            Err(fault) => Err((temp, fault)),
        }
    }

    fn drop_temp(&mut self, temp: Temp) -> Result<(), Failed> {
        let (_, is_failing) = self.next_call();
        let path = temp.path.as_str();
        let answer = remove_in(
            &mut self.table,
            &mut self.faults,
            self.alloc,
            is_failing,
            path,
        );
        self.record(drop_note(self.alloc, path, answer));
        answer
    }

    fn remove(&mut self, path: &str) -> Result<(), Failed> {
        let (_, is_failing) = self.next_call();
        let answer = remove_in(
            &mut self.table,
            &mut self.faults,
            self.alloc,
            is_failing,
            path,
        );
        self.record(remove_note(self.alloc, path, answer));
        answer
    }

    fn stamp(&mut self, path: &str, micros: u64) -> Result<(), Failed> {
        let (_, is_failing) = self.next_call();
        let answer = stamp_in(
            &mut self.table,
            &mut self.faults,
            self.alloc,
            is_failing,
            path,
            micros,
        );
        self.record(stamp_note(self.alloc, path, micros, answer));
        answer
    }
}
