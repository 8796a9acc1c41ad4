//! A file in memory.

ghost use Rattle.std.specs.Prelude.{◌≡◌, ◌≤◌, ◌+◌, ◌-◌, ◌++◌, [], OnOk, OnErr, length, take, drop, replicate};
ghost use Rattle.local_files.specs.Calls.{written_at};

use s3_model::OutOfMemory;
use std::alloc::Global;
use std::marker::Model;

/// A file in memory. `micros` is its time, in microseconds since 1970.
#[derive(Drop)]
pub struct MemFile {
    bytes: Vec<u8>,
    micros: u64,
}

impl Model for MemFile {
    ghost use Rattle.s3_model.specs.Files.{HeldFile};

    ghost Value = { HeldFile };

    ghost view = { λ f. record { bytes = f.bytes.items; micros = f.micros } };
}

impl MemFile {
    pub fn new(bytes: Vec<u8>, micros: u64) -> MemFile
        ensures { result ≡ record { bytes = bytes.items; micros = micros } }
    {
        MemFile { bytes, micros }
    }

    /// A file without bytes, which takes no memory.
    pub fn empty(alloc: Global) -> MemFile
        ensures { result ≡ record { bytes = []; micros = 0 } }
    {
        MemFile::new(Vec::new(alloc), 0)
    }

    pub fn bytes(&self) -> &[u8]
        ensures { result.now ≡ self.now.bytes }
    {
        &self.bytes
    }

    pub fn micros(&self) -> u64
        ensures { result ≡ self.now.micros }
    {
        self.micros
    }

    /// The same bytes with another time.
    pub fn with_micros(self, micros: u64) -> MemFile
        ensures { result ≡ record self { micros = micros } }
    {
        MemFile::new(self.bytes, micros)
    }

    /// Writes bytes from place `at` on, with zeros before them where the file ends before it.
    pub fn write(&mut self, at: u64, bytes: &[u8]) -> Result<(), OutOfMemory>
        ensures written { OnOk result
            (self.new ≡ record self.old { bytes = written_at at bytes.now self.old.bytes }) }
        ensures same { OnErr result (self.new ≡ self.old) }
    {
        write_over(&mut self.bytes, at as usize, bytes)
    }
}

#[tactic(auto, using(crate::proofs::Pasted::pasted_grown))]
fn write_over(old: &mut Vec<u8>, at: usize, bytes: &[u8]) -> Result<(), OutOfMemory>
    ensures written { OnOk result (old.new.items ≡ written_at at bytes.now old.old.items) }
    ensures same { OnErr result (old.new.items ≡ old.old.items) }
{
    let Some(end) = at.checked_add(bytes.len()) else {
        return Err(OutOfMemory);
    };
    grow(old, end)?;
    paste(old, at, bytes);
    Ok(())
}

// Adds zeros up to that length.
#[tactic(auto, using(crate::proofs::Pasted::grown_none))]
fn grow(bytes: &mut Vec<u8>, size: usize) -> Result<(), OutOfMemory>
    ensures grown { OnOk result
        (bytes.new.items ≡ bytes.old.items ++ replicate (size - length bytes.old.items) 0) }
    ensures same { OnErr result (bytes.new.items ≡ bytes.old.items) }
{
    if size <= bytes.len() {
        return Ok(());
    }
    match bytes.resize(size, 0) {
        Ok(()) => Ok(()),
        Err(_) => Err(OutOfMemory),
    }
}

fn paste(into: &mut [u8], at: usize, bytes: &[u8])
    requires { at + length bytes.now ≤ length into.old }
    ensures { into.new ≡ take at into.old ++ bytes.now ++ drop (at + length bytes.now) into.old }
{
    into[at..at + bytes.len()].copy_from_slice(bytes);
}
