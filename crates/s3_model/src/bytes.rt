//! Bytes with a room, and the parts of a transfer.

ghost use Rattle.std.specs.Prelude.{◌≡◌, ◌+◌, ◌≤◌, [], ◌++◌, length, take, IfOk};
ghost use Rattle.std.specs.Borrow.{Lends, Array, sem, u8};
ghost use Rattle.s3_model.specs.Lists.{with_bytes};
ghost use Rattle.s3_model.specs.contracts.bytes.Bytes.{the_row};

use crate::list::OutOfMemory;
use std::alloc::Global;
use std::marker::Model;

/// Bytes with a room, the greatest length that they can have without memory.
#[derive(Drop)]
pub struct Bytes {
    // The bytes, and behind them what was lent before.
    inner: Vec<u8>,
    count: usize,
    room: u64,
}

impl Model for Bytes {
    ghost use Rattle.std.specs.Prelude.{◌≡◌, ◌≤◌, vec_capacity, vec_len, take};
    ghost use Rattle.s3_model.specs.Lists.{Buffer};

    ghost Value = { Buffer };

    ghost view = { λ b. record { bytes = take b.count b.inner.items; room = b.room } };

    ghost invariant = { λ b. (b.count ≤ vec_len b.inner) × (b.room ≤ vec_capacity b.inner) };
}

impl Bytes {
    /// No bytes, with this room.
    pub fn make(alloc: Global, room: u64) -> Result<Bytes, OutOfMemory>
        ensures empty { IfOk result (λ made. made.bytes ≡ []) }
        ensures room { IfOk result (λ made. made.room ≡ room) }
    {
        let inner = Vec::with_capacity(alloc, room as usize)?;
        Ok(Bytes {
            inner,
            count: 0,
            room,
        })
    }

    /// Forgets the bytes and keeps the room.
    pub fn clear(&mut self)
        ensures empty { self.new.bytes ≡ [] }
        ensures room { self.new.room ≡ self.old.room }
    {
        self.count = 0;
    }

    /// Adds a piece at the end, without memory.
    pub fn add(&mut self, piece: &[u8])
        requires { length self.old.bytes + length piece.now ≤ self.old.room }
        ensures bytes { self.new.bytes ≡ self.old.bytes ++ piece.now }
        ensures room { self.new.room ≡ self.old.room }
    {
        self.inner.truncate(self.count);
        let Ok(()) = self.inner.extend_from_slice(piece) else {
            unreachable!();
        };
        self.count += piece.len();
    }

    /// Adds `count` bytes at the end, of any values, without memory: the place for what is written by `as_mut_slice`.
    pub fn grow(&mut self, count: usize)
        requires { length self.old.bytes + count ≤ self.old.room }
        ensures count { length self.new.bytes ≡ length self.old.bytes + count }
        ensures kept { take (length self.old.bytes) self.new.bytes ≡ self.old.bytes }
        ensures room { self.new.room ≡ self.old.room }
    {
        self.count += count;
        if self.inner.len() < self.count {
            let Ok(()) = self.inner.resize(self.count, 0) else {
                unreachable!();
            };
        }
    }

    /// The bytes, lent to be written.
    pub fn as_mut_slice(&mut self) -> &mut [u8]
        ensures* writes_back { sem 𝓛 (Lends the_row (Array u8 0) self.entry result (with_bytes self.old)) }
        ensures value { result.now ≡ self.old.bytes }
    {
        let count = self.count;
        self.inner.slice_mut(0..count)
    }

    /// Keeps the first `count` bytes alone.
    pub fn truncate(&mut self, count: usize)
        requires { count ≤ length self.old.bytes }
        ensures bytes { self.new.bytes ≡ take count self.old.bytes }
        ensures room { self.new.room ≡ self.old.room }
    {
        self.count = count;
    }

    pub fn as_slice(&self) -> &[u8]
        ensures { result.now ≡ self.now.bytes }
    {
        &self.inner[..self.count]
    }

    pub fn room(&self) -> u64
        ensures { result ≡ self.now.room }
    {
        self.room
    }
}

/// The buffer of one part on its way.
#[derive(Drop)]
pub struct Part {
    pub bytes: Bytes,
}
