//! Standard output and standard error.

ghost use Rattle.std.specs.Prelude.{◌≡◌, None};

use s3_outside::{Failed, Sink, count_fault};

/// Standard output or standard error, of which nothing is seen. Bytes are written at once and kept in no buffer.
#[derive(Drop)]
pub struct StdSink<P> {
    to: P,
    faults: u64,
}

impl<P: Print> StdSink<P> {
    /// Writes to what prints, as the runtime's `stdout()` or `stderr()`.
    pub fn new(to: P) -> StdSink<P>
        ensures { ⟦<StdSink<P> as Sink>⟧.faults result ≡ 0 }
    {
        StdSink { to, faults: 0 }
    }
}

impl<P: Print> Sink for StdSink<P> {
    ghost seen = { λ _. None };

    ghost faults = { λ s. s.faults };

    fn put(&mut self, bytes: &[u8]) -> Result<usize, Failed> {
        match self.to.write_some(bytes) {
            Ok(count) if count > 0 || bytes.is_empty() => Ok(count),
            _ => Err(count_fault(&mut self.faults)),
        }
    }
}
