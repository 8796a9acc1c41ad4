//! Connections to a service.

ghost use Rattle.std.specs.Prelude.{◌≡◌, ◌≤◌, ◌<◌, ◌⊎◌, [], ℕ, Bool, Option, length, IfOk, is_ok};
ghost use Rattle.std.specs.Option.{option_and, option_map};
ghost use Rattle.s3_model.specs.Counts.{HasCause, Rose};
ghost use Rattle.s3_model.specs.Talks.{WireLog, Moment, Pause};
ghost use Rattle.s3_outside.specs.Seen.{IsSeenAfter};
ghost use Rattle.s3_outside.specs.Wire.{begun, after_send, after_take, noted, is_kept, stays_alive, opened_after};

/// A call outside failed.
#[derive(Clone, Copy, Debug, PartialEq, Eq)]
pub struct Failed;

/// A connection to a service, over which one talk after the other is made, with a clock.
///
/// The talks and notes of a wire in memory are seen as long as it finds memory for them; of a real one nothing is seen.
pub trait Wire {
    /// The talks and the notes so far, or None where they are not seen.
    ghost seen: { Self → Option WireLog };

    /// Whether the connection is kept for the next talk, where the talks are seen.
    ghost alive: { Self → Option Bool };

    /// How many connections were opened, where the talks are seen: one for each talk that began and found none kept for
    /// its host and port. The count stops at 2^32 - 1.
    ghost opened: { Self → Option ℕ };

    /// How often a call failed. The count stops at 2^64 - 1.
    ghost faults: { Self → ℕ };

    /// Begins a talk, over a new connection or one that was kept.
    fn begin(&mut self, host: &str, port: u16) -> Result<(), Failed>
        ensures log { IsSeenAfter (begun host.now port (is_ok result)) (seen self.old) (seen self.new) (faults self.old)
            (faults self.new) }
        ensures alive { alive self.new ≡ option_and (seen self.new) (option_map (stays_alive result) (alive self.old)) }
        ensures opened { opened self.new ≡ option_and (seen self.new)
            (opened_after host.now port (is_ok result) (seen self.old) (alive self.old) (opened self.old)) }
        ensures cause { HasCause (faults self.old) (faults self.new) result };

    /// Sends a first part of the bytes and answers how many it took: at least one, unless there are none.
    fn send(&mut self, bytes: &[u8]) -> Result<usize, Failed>
        ensures bound { IfOk result (λ count. count ≤ length bytes.now) }
        ensures progress { IfOk result (λ count. (0 < count) ⊎ (bytes.now ≡ [])) }
        ensures log { seen self.new ≡ option_map (after_send bytes.now result) (seen self.old) }
        ensures alive { alive self.new ≡ option_map (stays_alive result) (alive self.old) }
        ensures opened { opened self.new ≡ opened self.old }
        ensures cause { HasCause (faults self.old) (faults self.new) result };

    /// Takes what came back to the front of `into`; 0 is the end of the connection, unless `into` is empty.
    fn take(&mut self, into: &mut [u8]) -> Result<usize, Failed>
        ensures bound { IfOk result (λ count. count ≤ length into.new) }
        ensures length { length into.new ≡ length into.old }
        ensures log { seen self.new ≡ option_map (after_take into.new result) (seen self.old) }
        ensures alive { alive self.new ≡ option_map (stays_alive result) (alive self.old) }
        ensures opened { opened self.new ≡ opened self.old }
        ensures cause { HasCause (faults self.old) (faults self.new) result };

    /// Ends the talk. The connection is kept only where `keep` is true and no call failed in the talk.
    fn finish(&mut self, keep: bool)
        ensures log { seen self.new ≡ seen self.old }
        ensures alive { alive self.new ≡ option_map (is_kept keep) (seen self.old) }
        ensures opened { opened self.new ≡ opened self.old }
        ensures later { faults self.old ≤ faults self.new };

    /// The time now, in seconds since 1970, before the year 10,000.
    fn moment(&mut self) -> u64
        ensures bound { result < 253402300800 }
        ensures log { IsSeenAfter (noted (Moment result)) (seen self.old) (seen self.new) (faults self.old)
            (faults self.new) }
        ensures alive { alive self.new ≡ option_and (seen self.new) (alive self.old) }
        ensures opened { opened self.new ≡ option_and (seen self.new) (opened self.old) }
        ensures later { faults self.old ≤ faults self.new };

    /// Waits for so many seconds.
    fn pause(&mut self, seconds: u32)
        ensures log { IsSeenAfter (noted (Pause seconds)) (seen self.old) (seen self.new) (faults self.old)
            (faults self.new) }
        ensures alive { alive self.new ≡ option_and (seen self.new) (alive self.old) }
        ensures opened { opened self.new ≡ option_and (seen self.new) (opened self.old) }
        ensures later { faults self.old ≤ faults self.new };
}

/// One more fault, up to the last number.
pub fn count_fault(faults: &mut u64) -> Failed
    ensures rose { Rose faults.old faults.new }
    ensures later { faults.old ≤ faults.new }
{
    *faults = faults.saturating_add(1);
    Failed
}
