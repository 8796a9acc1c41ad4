//! The parts in memory, lent and given back.

ghost use Rattle.std.specs.Prelude.{
  ◌≡◌,
  ◌+◌,
  ◌-◌,
  ◌<◌,
  ◌≤◌,
  ◌↔◌,
  ℕ,
  [],
  max,
  IsNone,
  IfSome,
  IfNone,
  OnSome,
  IfOk,
  OnOk,
  OnErr,
};
ghost use Rattle.chunk_plan.specs.Pool.{HaveAtMost, HaveRoom};

use s3_model::{Bytes, OutOfMemory, Part};
use std::alloc::Global;
use std::marker::Model;

/// A fixed number of parts, which are lent and given back without memory.
///
/// Contracts see how many parts there are, how many of them are free and lent, a room that each has at least, and one
/// that none exceeds. These two are the same until an `enlarge` fails, or a larger part is given back.
#[derive(Drop)]
pub struct PartPool {
    parts: Vec<Part>,
    lent: u32,
    room: u64,
    most: u64,
    alloc: Global,
}

impl Model for PartPool {
    ghost use Rattle.std.specs.Prelude.{◌+◌, ◌^◌, ◌<◌, ◌≤◌, vec_len, vec_capacity};
    ghost use Rattle.chunk_plan.specs.Pool.{HaveAtMost, HaveRoom, Pool};

    ghost Value = { Pool };

    ghost view = { λ p. record {
      count = vec_len p.parts + p.lent;
      free = vec_len p.parts;
      lent = p.lent;
      room = p.room;
      most = p.most;
    } };

    ghost invariant = { λ p. (vec_len p.parts + p.lent ≤ vec_capacity p.parts) × (vec_len p.parts + p.lent < 2 ^ 32)
        × HaveRoom p.room p.parts.items × HaveAtMost p.most p.parts.items };
}

impl PartPool {
    /// `count` parts with a room of `bytes` bytes each.
    pub fn make(alloc: Global, count: u32, bytes: u64) -> Result<PartPool, OutOfMemory>
        ensures { IfOk result
            (λ pool. pool ≡ record { count = count; free = count; lent = 0; room = bytes; most = bytes }) }
    {
        let mut parts = Vec::with_capacity(alloc, count as usize)?;
        for _ in 0..count {
            let bytes = Bytes::make(alloc, bytes)?;
            parts.push_reserved(Part { bytes });
        }
        Ok(PartPool {
            parts,
            lent: 0,
            room: bytes,
            most: bytes,
            alloc,
        })
    }

    /// An empty part, or None where all are lent.
    pub fn lend(&mut self) -> Option<Part>
        ensures none { IsNone result ↔ (self.old.free ≡ 0) }
        ensures empty { IfSome result (λ part. part.bytes.bytes ≡ []) }
        ensures room { IfSome result (λ part. self.old.room ≤ part.bytes.room) }
        ensures most { IfSome result (λ part. part.bytes.room ≤ self.old.most) }
        ensures lent { OnSome result
            (self.new ≡ record self.old { free = self.old.free - 1; lent = self.old.lent + 1 }) }
        ensures same { IfNone result (self.new ≡ self.old) }
    {
        let mut part = self.parts.pop()?;
        part.bytes.clear();
        self.lent += 1;
        Some(part)
    }

    /// Takes a lent part back.
    pub fn give_back(&mut self, part: Part)
        requires lent { 0 < self.old.lent }
        requires room { self.old.room ≤ part.bytes.room }
        ensures { self.new ≡
            record self.old {
              free = self.old.free + 1;
              lent = self.old.lent - 1;
              most = max self.old.most part.bytes.room;
            } }
    {
        self.most = self.most.max(part.bytes.room());
        let Ok(()) = self.parts.push(part) else {
            unreachable!();
        };
        self.lent -= 1;
    }

    /// Gives each part a room of at least `bytes` bytes. Where memory runs out, each has at least the room that it had.
    pub fn enlarge(&mut self, bytes: u64) -> Result<(), OutOfMemory>
        requires { self.old.lent ≡ 0 }
        ensures ok { OnOk result
            (self.new ≡ record self.old { room = max self.old.room bytes; most = max self.old.most bytes }) }
        ensures err { OnErr result (self.new ≡ record self.old { most = max self.old.most bytes }) }
    {
        self.most = self.most.max(bytes);
        enlarge_all(self.alloc, &mut self.parts, bytes)?;
        self.room = self.room.max(bytes);
        Ok(())
    }

    /// How many parts are not lent.
    pub fn free(&self) -> u32
        ensures free { result ≡ self.now.free }
        ensures whole { self.now.free + self.now.lent ≡ self.now.count }
    {
        self.parts.len() as u32
    }

    /// How many parts are lent.
    pub fn lent(&self) -> u32
        ensures lent { result ≡ self.now.lent }
        ensures whole { self.now.free + self.now.lent ≡ self.now.count }
    {
        self.lent
    }
}

/// Makes a new buffer for a part whose room is too small.
fn enlarge_part(alloc: Global, part: &mut Part, bytes: u64) -> Result<(), OutOfMemory>
    ensures kept { part.old.bytes.room ≤ part.new.bytes.room }
    ensures most { part.new.bytes.room ≤ max part.old.bytes.room bytes }
    ensures ok { OnOk result (bytes ≤ part.new.bytes.room) }
{
    if part.bytes.room() < bytes {
        part.bytes = Bytes::make(alloc, bytes)?;
    }
    Ok(())
}

fn enlarge_all(alloc: Global, parts: &mut [Part], bytes: u64) -> Result<(), OutOfMemory>
    ensures kept { (room : ℕ) → HaveRoom room parts.old → HaveRoom room parts.new }
    ensures most { (most : ℕ) → HaveAtMost most parts.old → HaveAtMost (max most bytes) parts.new }
    ensures ok { OnOk result (HaveRoom bytes parts.new) }
{
    for part in parts.iter_mut() {
        enlarge_part(alloc, part, bytes)?;
    }
    Ok(())
}
