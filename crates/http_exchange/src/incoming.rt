//! What came from a wire and is not read yet.

ghost use Rattle.std.specs.Prelude.{◌≡◌, ◌≤◌, [], ◌+◌, ◌-◌, ◌++◌, IfOk, length, take, drop, min, slice_range};
ghost use Rattle.http_exchange.specs.Steps.{HasWireCause, Hears, TakesPiece, filled};

use s3_model::{Bytes, OutOfMemory, Why};
use s3_outside::Wire;
use std::alloc::Global;
use std::marker::Model;

/// The greatest number of bytes that are taken at once with what may stand behind the answer.
pub(crate) const PIECE: usize = 16_384;

/// Room for the bytes of a head, and behind them a piece.
pub(crate) const ROOM: usize = 81_920;

/// Bytes that came and are not read yet, in a place that is made once. Contracts see them as a list.
#[derive(Drop)]
pub(crate) struct Incoming {
    buffer: Vec<u8>,
    start: usize,
    end: usize,
}

impl Model for Incoming {
    ghost use Rattle.std.specs.Prelude.{◌≡◌, ◌≤◌, ℕ, List, vec_len, slice_range};

    ghost Value = { List ℕ };

    ghost view = { λ i. slice_range i.buffer.items i.start i.end };

    ghost invariant = { λ i. (i.start ≤ i.end) × (i.end ≤ vec_len i.buffer) × (vec_len i.buffer ≡ 81_920) };
}

/// Moves the bytes of a range to the front.
fn move_to_front(buffer: &mut [u8], start: usize, end: usize)
    requires ordered { start ≤ end }
    requires within { end ≤ length buffer.old }
    ensures front { slice_range buffer.new 0 (end - start) ≡ slice_range buffer.old start end }
    ensures len { length buffer.new ≡ length buffer.old }
{
    buffer.copy_within(start..end, 0);
}

/// Moves the bytes of a range to the front, and takes a piece from the wire behind them.
fn take_behind<W: Wire>(
    wire: &mut W,
    buffer: &mut [u8],
    start: usize,
    end: usize,
) -> Result<usize, Why>
    requires ordered { start ≤ end }
    requires within { end ≤ length buffer.old }
    requires room { end - start + 16_384 ≤ length buffer.old }
    ensures heard { Hears (W.seen wire.old) (W.seen wire.new)
        (TakesPiece (slice_range buffer.old start end) (filled buffer.new (end - start) result) result) }
    ensures cause { HasWireCause (W.faults wire.old) (W.faults wire.new) result }
    ensures len { length buffer.new ≡ length buffer.old }
{
    move_to_front(buffer, start, end);
    let kept = end - start;
    match wire.take(&mut buffer[kept..kept + PIECE]) {
        Ok(count) => Ok(count),
        Err(_) => Err(Why::WireFailed),
    }
}

/// Writes two runs of bytes to the front, one behind the other.
fn write_both(buffer: &mut [u8], first: &[u8], second: &[u8])
    requires { length first.now + length second.now ≤ length buffer.old }
    ensures front { slice_range buffer.new 0 (length first.now + length second.now) ≡ first.now ++ second.now }
    ensures len { length buffer.new ≡ length buffer.old }
{
    let middle = first.len();
    buffer[..middle].copy_from_slice(first);
    buffer[middle..middle + second.len()].copy_from_slice(second);
}

impl Incoming {
    /// No bytes.
    pub(crate) fn make(alloc: Global) -> Result<Incoming, OutOfMemory>
        ensures { IfOk result (λ made. made ≡ []) }
    {
        let buffer = vec![in alloc; 0u8; ROOM]?;
        Ok(Incoming {
            buffer,
            start: 0,
            end: 0,
        })
    }

    /// Forgets the bytes.
    pub(crate) fn clear(&mut self)
        ensures { self.new ≡ [] }
    {
        self.start = 0;
        self.end = 0;
    }

    /// Lends the place to two runs of bytes, which stand there one behind the other in place of what came.
    pub(crate) fn hold(&mut self, first: &[u8], second: &[u8])
        requires { length first.now + length second.now ≤ 81_920 }
        ensures { self.new ≡ first.now ++ second.now }
    {
        write_both(&mut self.buffer, first, second);
        self.start = 0;
        self.end = first.len() + second.len();
    }

    /// The bytes that are not read yet.
    pub(crate) fn bytes(&self) -> &[u8]
        ensures { result.now ≡ self.now }
    {
        &self.buffer[self.start..self.end]
    }

    /// Goes on behind so many bytes.
    pub(crate) fn skip(&mut self, count: usize)
        requires { count ≤ length self.old }
        ensures { self.new ≡ drop count self.old }
    {
        self.start += count;
    }

    /// Takes a piece from the wire behind the bytes, and answers its length: 0 at the end of the connection.
    pub(crate) fn refill<W: Wire>(&mut self, wire: &mut W) -> Result<usize, Why>
        requires { length self.old ≤ 65_536 }
        ensures heard { Hears (W.seen wire.old) (W.seen wire.new) (TakesPiece self.old self.new result) }
        ensures cause { HasWireCause (W.faults wire.old) (W.faults wire.new) result }
    {
        let kept = self.end - self.start;
        match take_behind(wire, &mut self.buffer, self.start, self.end) {
            Ok(count) => {
                self.start = 0;
                self.end = kept + count;
                Ok(count)
            }
            Err(why) => Err(why),
        }
    }

    /// Moves at most so many bytes to the end of a body, and answers how many.
    pub(crate) fn move_to(&mut self, body: &mut Bytes, most: usize) -> usize
        requires { length body.old.bytes + most ≤ body.old.room }
        ensures count { result ≡ min (length self.old) most }
        ensures moved { body.new.bytes ≡ body.old.bytes ++ take result self.old }
        ensures left { self.new ≡ drop result self.old }
        ensures room { body.new.room ≡ body.old.room }
    {
        let bytes = self.bytes();
        let count = bytes.len().min(most);
        body.add(&bytes[..count]);
        self.skip(count);
        count
    }
}
