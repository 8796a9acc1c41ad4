//! Why a request changed nothing.

use s3_model::OutOfMemory;
use std::alloc::AllocError;

/// Why a request is refused.
#[derive(Clone, Copy)]
pub enum Refusal {
    NoSuchBucket,
    NoSuchKey,
    NoSuchUpload,
    PreconditionFailed,
    InvalidRange,
    InvalidPart,
    EntityTooSmall,
    InvalidArgument,
}

/// Why a request changed nothing: it was refused, or memory ran out.
#[derive(Clone, Copy)]
pub enum TableFault {
    Refused(Refusal),
    Memory,
}

impl From<OutOfMemory> for TableFault {
    ghost use Rattle.std.specs.Prelude.{◌≡◌};
    ghost use Rattle.object_table.specs.declared.fault.TableFault.TheVariants as fault;

    ghost from_gives = { λ _ given. given ≡ fault.Memory };

    fn from(_: OutOfMemory) -> TableFault {
        TableFault::Memory
    }
}

impl From<Refusal> for TableFault {
    ghost use Rattle.std.specs.Prelude.{◌≡◌};
    ghost use Rattle.object_table.specs.declared.fault.TableFault.TheVariants as fault;

    ghost from_gives = { λ why given. given ≡ fault.Refused why };

    fn from(why: Refusal) -> TableFault {
        TableFault::Refused(why)
    }
}

impl From<AllocError> for TableFault {
    ghost use Rattle.std.specs.Prelude.{◌≡◌};
    ghost use Rattle.object_table.specs.declared.fault.TableFault.TheVariants as fault;

    ghost from_gives = { λ _ given. given ≡ fault.Memory };

    fn from(_: AllocError) -> TableFault {
        TableFault::Memory
    }
}
