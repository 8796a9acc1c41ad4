//! The environment of a run.

ghost use Rattle.std.specs.Prelude.{◌≡◌, ◌≤◌, ℕ, Option, Err, IfOk, IfSome, length, option_map};
ghost use Rattle.std.specs.FinMap.{get};
ghost use Rattle.s3_model.specs.Counts.{Rose};
ghost use Rattle.s3_model.specs.Validity.{IsValidLimits};

use s3_model::{Limits, OutOfMemory, Text};
use std::alloc::Global;

/// The most bytes of a file that is read, 1 MiB.
pub const MOST_FILE_BYTES: usize = 1_048_576;

/// What Amazon S3 allows, in bytes but for `max_parts` (Amazon S3 User Guide, "Amazon S3 multipart upload limits").
pub const S3_LIMITS: Limits = Limits {
    min_part: 5_242_880,
    max_part: 5_368_709_120,
    max_parts: 10_000,
    max_object: 1_099_511_627_776,
};

/// Why a settings file was not read.
#[derive(Clone, Copy, Debug, PartialEq, Eq)]
pub enum EnvFault {
    Failed,
    Memory,
}

/// The environment of a run.
///
/// The environment in memory is seen as long as it finds memory for the paths that it was asked for; of a real one
/// nothing is seen.
pub trait Env {
    ghost use Rattle.s3_model.specs.declared.settings.Limits.{Limits};
    ghost use Rattle.s3_outside.specs.Env.{SeenEnv, asks};
    ghost use Rattle.s3_outside.specs.Seen.{IsSeenAfter};

    /// The variables, the files and the paths asked for, or None where they are not seen.
    ghost seen: { Self → Option SeenEnv };

    /// What the service allows.
    ghost allows: { Self → Limits };

    /// How often a call failed. The count stops at 2^64 - 1.
    ghost faults: { Self → ℕ };

    /// The value of a variable; None where it is not set or is no UTF-8.
    fn word(&mut self, alloc: Global, name: &str) -> Result<Option<Text>, OutOfMemory>
        ensures value { IfSome (seen self.old) (λ env. IfOk result (λ word. word ≡ get env.variables name.now)) }
        ensures same { seen self.new ≡ seen self.old }
        ensures limits { allows self.new ≡ allows self.old }
        ensures later { faults self.old ≤ faults self.new };

    /// The bytes of a settings file; None where there is no such file. A file of more than 1,048,576 bytes is a fault.
    fn file(&mut self, alloc: Global, path: &str) -> Result<Option<Vec<u8>>, EnvFault>
        ensures value { IfSome (seen self.old) (λ env. IfOk result (λ file.
            option_map (λ bytes. bytes.items) file ≡ get env.files path.now)) }
        ensures bound { IfOk result (λ file. IfSome file (λ bytes. length bytes.items ≤ 1048576)) }
        ensures asked { IsSeenAfter (asks path.now) (seen self.old) (seen self.new) (faults self.old)
            (faults self.new) }
        ensures limits { allows self.new ≡ allows self.old }
        ensures later { faults self.old ≤ faults self.new }
        ensures cause { result ≡ Err EnvFault.Failed → Rose (faults self.old) (faults self.new) };

    /// The limits of the service.
    fn limits(&self) -> Limits
        ensures value { result ≡ allows self.now }
        ensures valid { IsValidLimits result };
}
