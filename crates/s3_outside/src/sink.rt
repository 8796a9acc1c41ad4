//! Outputs.

ghost use Rattle.std.specs.Prelude.{◌≡◌, ◌≤◌, ◌<◌, ◌⊎◌, ◌++◌, [], ℕ, List, Option, length, take, IfOk, OnErr};
ghost use Rattle.std.specs.Option.{option_map};
ghost use Rattle.s3_model.specs.Counts.{HasCause};
ghost use Rattle.s3_outside.specs.Sink.{after_put};

use crate::wire::Failed;

/// An output.
pub trait Sink {
    /// The bytes that it took so far, or None where they are not seen.
    ghost seen: { Self → Option (List ℕ) };

    /// How often a call failed. The count stops at 2^64 - 1.
    ghost faults: { Self → ℕ };

    /// Takes a first part of the bytes and answers how many: at least one, unless there are none.
    fn put(&mut self, bytes: &[u8]) -> Result<usize, Failed>
        ensures bound { IfOk result (λ count. count ≤ length bytes.now) }
        ensures progress { IfOk result (λ count. (0 < count) ⊎ (bytes.now ≡ [])) }
        ensures got { seen self.new ≡ option_map (after_put bytes.now result) (seen self.old) }
        ensures cause { HasCause (faults self.old) (faults self.new) result };
}
