//! Why an input is refused.

use crate::list::OutOfMemory;
use crate::text::Text;

/// Why a text is no S3 URI.
#[derive(Clone, Copy, Debug)]
pub enum UriFault {
    /// It has no `s3://` in front.
    NotS3,
    /// Its bucket is empty.
    NoBucket,
    /// The place in the bucket of the first byte that is not allowed, or 255 where the bucket is longer.
    BadBucket(usize),
    /// Its key is longer than 1,024 bytes.
    LongKey(usize),
    Memory,
}

/// Why a name is left out.
#[derive(Clone, Copy, Debug)]
pub enum KeySkip {
    EmptyName,
    Dots,
    TempLike,
    LongKey(usize),
    Memory,
}

/// Why a text is no endpoint.
#[derive(Clone, Copy, Debug)]
pub enum EndpointFault {
    Tls,
    NotHttp,
    NoHost,
    BadPort,
    HasPath,
    Memory,
}

/// Why the words of a command line are refused; numbers are places of words, counted from 0.
#[derive(Clone, Copy, Debug)]
pub enum WordFault {
    NoCommand,
    UnknownCommand(usize),
    UnknownOption(usize),
    NoValue(usize),
    BadValue(usize),
    PathCount { found: usize, wanted: usize },
    Pair,
    Twice(usize),
    Endpoint(usize, EndpointFault),
    NoEndpoint,
    Memory,
}

/// Why the settings are refused; lines are counted from 1.
#[derive(Drop)]
pub enum ProfileFault {
    NoKeys,
    NoRegion,
    NoProfile(Text),
    BadLine { credentials: bool, line: u32 },
    BadSetting { line: u32, name: Text },
    Memory,
}

/// Why there is no plan.
#[derive(Drop)]
pub enum PlanFault {
    /// A key is both read and written.
    Overlap(Text),
    /// There are more than 1,000,000 tasks.
    TooMany,
    TooLarge { path: Text, size: u64 },
    Memory,
    NoSource(Text),
    IsFolder(Text),
    NotFolder(Text),
}

/// Why a tree of files was not read.
#[derive(Clone, Copy, Debug)]
pub enum WalkFault {
    Files,
    TooDeep,
    TooMany,
    Memory,
}

impl From<OutOfMemory> for WalkFault {
    ghost use Rattle.std.specs.Prelude.{◌≡◌};
    ghost use Rattle.s3_model.specs.declared.faults.WalkFault.TheVariants as fault;

    ghost from_gives = { λ _ given. given ≡ fault.Memory };

    fn from(_: OutOfMemory) -> WalkFault {
        WalkFault::Memory
    }
}

/// Why a page of a listing is refused.
#[derive(Drop)]
pub enum BadListing {
    Order { before: Text, after: Text },
    NoToken,
    EmptyPages,
    TooMany,
    Memory,
    Outside(Text),
}
