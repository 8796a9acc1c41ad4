//! Two wires to one service in memory, each with an upload of its own: the first wire takes its answer only once the
//! second sent its request.

use crate::lanes::uploads::end_of_upload;
use crate::services::{MOMENT, service_with_bucket, wire_to};
use crate::texts::text;
use s3_fakes::{Gate, GateWire, MemWire, SharedTable};
use s3_model::OutOfMemory;
use std::alloc::{AllocError, Global};
use std::mem;
use std::rt::Clock;
use std::sync::{Arc, Wait};
use std::thread::{Threads, join};

/// A gate that any request closes, and any request of another wire opens.
fn gates(alloc: Global) -> Result<Vec<Gate>, OutOfMemory> {
    let gate = Gate {
        first: text(alloc, ""),
        second: text(alloc, ""),
    };
    Ok(vec![in alloc; gate]?)
}

/// Two wires to one service, the first with a gate.
#[derive(Drop)]
struct Wires<R: Wait + Clock> {
    first: GateWire<R>,
    second: MemWire<R>,
    table: SharedTable,
}

/// What became of both uploads.
#[derive(Clone, Copy)]
struct Ends {
    one: &'static str,
    two: &'static str,
}

/// The wire with the gate.
fn gate_wire<R>(rt: &R, alloc: Global, table: &SharedTable) -> Result<GateWire<R>, OutOfMemory>
where
    R: Wait + Clock + Clone + Drop,
{
    let runtime = rt.clone()?;
    let table = Arc::try_clone(table)?;
    match gates(alloc) {
        Ok(gates) => GateWire::make(alloc, runtime, table, MOMENT, gates),
        Err(OutOfMemory) => {
            mem::drop(table);
            Err(OutOfMemory)
        }
    }
}

/// Two wires to this service, of which the first has the gate.
fn wires_to<R>(rt: &R, alloc: Global, table: SharedTable) -> Result<Wires<R>, OutOfMemory>
where
    R: Wait + Clock + Clone + Drop,
{
    match gate_wire(rt, alloc, &table) {
        Ok(first) => wires_beside(rt, alloc, table, first),
        Err(OutOfMemory) => {
            mem::drop(table);
            Err(OutOfMemory)
        }
    }
}

/// The wire without a gate beside the one with it.
fn wires_beside<R>(
    rt: &R,
    alloc: Global,
    table: SharedTable,
    first: GateWire<R>,
) -> Result<Wires<R>, OutOfMemory>
where
    R: Wait + Clock + Clone + Drop,
{
    match wire_to(alloc, rt, &table) {
        Ok(second) => Ok(Wires {
            first,
            second,
            table,
        }),
        Err(OutOfMemory) => {
            mem::drop(first);
            mem::drop(table);
            Err(OutOfMemory)
        }
    }
}

impl<R: Wait + Clock + Clone + Drop> Wires<R> {
    fn make(rt: &R, alloc: Global) -> Result<Wires<R>, OutOfMemory> {
        match service_with_bucket(alloc) {
            Ok(table) => wires_to(rt, alloc, table),
            Err(OutOfMemory) => Err(OutOfMemory),
        }
    }

    /// Both uploads at once, and what became of each.
    fn upload_at_once(&mut self, rt: &R, alloc: Global) -> Ends
    where
        R: Threads + Send + Sync,
    {
        let (first, second) = (&mut self.first, &mut self.second);
        let (one, two) = join(
            rt,
            || end_of_upload(alloc, first, "1"),
            || end_of_upload(alloc, second, "2"),
        );
        Ends { one, two }
    }

    /// One upload after the other, and what became of each.
    fn upload_in_turn(&mut self, alloc: Global) -> Ends {
        let one = end_of_upload(alloc, &mut self.first, "1");
        let two = end_of_upload(alloc, &mut self.second, "2");
        Ends { one, two }
    }

    /// How many requests the service had.
    fn requests(&self, rt: &R) -> u64 {
        self.table.lock(rt).requests()
    }

    /// What the wires and the service show.
    fn counts(&self, rt: &R, alloc: Global) -> Result<String, AllocError> {
        let (talks, beside) = (self.first.talks().len(), self.second.talks().len());
        let (faults, requests) = (self.first.faults(), self.requests(rt));
        format!(in alloc; "talks {talks} and {beside} faults {faults} requests {requests}")
    }

    /// Both uploads, what became of them, and what the wires and the service show then.
    fn line(&mut self, rt: &R, alloc: Global, how: &str) -> Result<String, AllocError>
    where
        R: Threads + Send + Sync,
    {
        let ends = if how == "in turn" {
            self.upload_in_turn(alloc)
        } else {
            self.upload_at_once(rt, alloc)
        };
        let counts = self.counts(rt, alloc)?;
        line(alloc, how, ends, counts.as_str())
    }
}

fn line(alloc: Global, how: &str, ends: Ends, counts: &str) -> Result<String, AllocError> {
    let Ends { one, two } = ends;
    format!(in alloc; "{how}: {one}, {two}, {counts}")
}

/// Both uploads, `in threads` or `in turn`.
pub(crate) fn both_shown<R>(rt: &R, alloc: Global, how: &str) -> Result<String, AllocError>
where
    R: Threads + Wait + Clock + Clone + Send + Sync + Drop,
{
    match Wires::make(rt, alloc) {
        Ok(mut wires) => {
            let line = wires.line(rt, alloc, how);
            mem::drop(wires);
            line
        }
        Err(OutOfMemory) => Err(AllocError),
    }
}
