//! A service in memory with one wire, and the requests that are sent over it.

ghost use Rattle.std.specs.Prelude.{◌≤◌, IfSome};
ghost use Rattle.attempts.specs.Attempts.{IsGet};

use crate::services::{keys, memory_endpoint, service, wire_to};
use attempts::{Attempted, Client, Payload, attempt};
use s3_fakes::{MemWire, SharedTable};
use s3_model::{Ask, Bytes, Class, OutOfMemory};
use s3_outside::Wire;
use std::alloc::Global;
use std::mem;
use std::sync::Wait;

/// The most bytes that a Get is given.
const ROOM: u64 = 65_536;

/// A service in memory with one wire.
#[derive(Drop)]
pub(crate) struct Desk<R: Wait> {
    pub table: SharedTable,
    pub wire: MemWire<R>,
}

/// The most bytes that the answer to a request may have where they are kept.
fn limit_of(ask: &Ask) -> Option<u64>
    ensures { IfSome result (λ most. IsGet ask.now × (most ≤ 65536)) }
{
    match ask {
        Ask::Get { .. } => Some(ROOM),
        _ => None,
    }
}

/// What the answer to a request means, with the bytes of a Get.
#[derive(Drop)]
pub(crate) struct Answer {
    pub class: Class,
    pub bytes: Bytes,
}

/// What one attempt of a request comes to; the bytes of a Get go to `into`.
fn class_of<W: Wire>(
    alloc: Global,
    wire: &mut W,
    client: &mut Client,
    ask: &Ask,
    payload: &Payload<'_>,
    into: &mut Bytes,
) -> Result<Class, OutOfMemory>
    requires { 65536 ≤ into.old.room }
{
    match attempt(alloc, wire, client, ask, payload, limit_of(ask), into, true) {
        Attempted::Made(judged) => Ok(judged.class),
        Attempted::Memory => Err(OutOfMemory),
    }
}

fn answer_to<W: Wire>(
    alloc: Global,
    wire: &mut W,
    client: &mut Client,
    ask: &Ask,
    payload: &Payload<'_>,
) -> Result<Answer, OutOfMemory> {
    let mut into = Bytes::make(alloc, ROOM)?;
    match class_of(alloc, wire, client, ask, payload, &mut into) {
        Ok(class) => Ok(Answer { class, bytes: into }),
        Err(OutOfMemory) => {
            mem::drop(into);
            Err(OutOfMemory)
        }
    }
}

fn send_by<W: Wire>(
    alloc: Global,
    wire: &mut W,
    client: &mut Client,
    ask: &Ask,
    bytes: &[u8],
) -> Result<Answer, OutOfMemory> {
    let payload = Payload::of(alloc, ask, bytes, &mut None)?;
    answer_to(alloc, wire, client, ask, &payload)
}

/// Sends a request once.
pub(crate) fn send<W: Wire>(
    alloc: Global,
    wire: &mut W,
    ask: &Ask,
    bytes: &[u8],
) -> Result<Answer, OutOfMemory> {
    match Client::make(alloc, memory_endpoint(alloc), keys(alloc)) {
        Ok(mut client) => {
            let answer = send_by(alloc, wire, &mut client, ask, bytes);
            mem::drop(client);
            answer
        }
        Err(OutOfMemory) => Err(OutOfMemory),
    }
}

impl<R: Wait + Clone + Drop> Desk<R> {
    /// A service without buckets.
    pub(crate) fn make(alloc: Global, rt: &R) -> Result<Desk<R>, OutOfMemory> {
        let table = service(alloc)?;
        match wire_to(alloc, rt, &table) {
            Ok(wire) => Ok(Desk { table, wire }),
            Err(OutOfMemory) => {
                mem::drop(table);
                Err(OutOfMemory)
            }
        }
    }

    /// A new service without buckets.
    pub(crate) fn renew(&mut self, alloc: Global) -> Result<(), OutOfMemory> {
        match service(alloc) {
            Ok(table) => {
                let before = mem::replace(&mut self.table, table);
                mem::drop(before);
                Ok(())
            }
            Err(OutOfMemory) => Err(OutOfMemory),
        }
    }

    /// A wire of its own for what follows, with an empty log.
    pub(crate) fn rewire(&mut self, alloc: Global, rt: &R) -> Result<(), OutOfMemory> {
        match wire_to(alloc, rt, &self.table) {
            Ok(wire) => {
                let before = mem::replace(&mut self.wire, wire);
                mem::drop(before);
                Ok(())
            }
            Err(OutOfMemory) => Err(OutOfMemory),
        }
    }
}
