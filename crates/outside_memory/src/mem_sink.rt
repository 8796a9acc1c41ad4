//! An output in memory.

ghost use Rattle.std.specs.Prelude.{◌≡◌, [], Some};

use s3_outside::{Failed, Sink, count_fault};
use std::alloc::Global;

/// An output in memory. The calls of `failing`, counted from 0, fail, and so does each call once `limit` bytes are taken.
#[derive(Drop)]
pub struct MemSink {
    got: Vec<u8>,
    limit: usize,
    failing: Vec<usize>,
    puts: usize,
    faults: u64,
}

impl MemSink {
    /// An output that took nothing yet, with room for any number of bytes.
    pub fn make(alloc: Global) -> MemSink
        ensures seen { ⟦<MemSink as Sink>⟧.seen result ≡ Some [] }
        ensures faults { ⟦<MemSink as Sink>⟧.faults result ≡ 0 }
    {
        MemSink::make_failing(alloc, Vec::new(alloc), usize::MAX)
    }

    /// Takes up to `limit` bytes, and fails in the listed calls.
    pub fn make_failing(alloc: Global, failing: Vec<usize>, limit: usize) -> MemSink
        ensures seen { ⟦<MemSink as Sink>⟧.seen result ≡ Some [] }
        ensures faults { ⟦<MemSink as Sink>⟧.faults result ≡ 0 }
    {
        MemSink {
            got: Vec::new(alloc),
            limit,
            failing,
            puts: 0,
            faults: 0,
        }
    }

    /// The bytes that it took.
    pub fn got(&self) -> &[u8]
        ensures { ⟦<MemSink as Sink>⟧.seen self.now ≡ Some result.now }
    {
        &self.got
    }
}

impl Sink for MemSink {
    ghost seen = { λ s. Some s.got.items };

    ghost faults = { λ s. s.faults };

    fn put(&mut self, bytes: &[u8]) -> Result<usize, Failed> {
        let is_failing = self.failing.contains(&self.puts);
        self.puts = self.puts.saturating_add(1);
        let count = bytes.len().min(self.limit.saturating_sub(self.got.len()));
        let is_full = count == 0 && !bytes.is_empty();
        if is_failing || is_full || self.got.extend_from_slice(&bytes[..count]).is_err() {
            return Err(count_fault(&mut self.faults));
        }
        Ok(count)
    }
}
