//! Why the planning ends early.

use s3_model::{BadListing, Cause, OutOfMemory};

/// Why a request of the planning, or a listing, has no answer.
#[derive(Drop)]
pub enum Halt {
    /// The service refused the request, or nobody can know what it came to.
    Answer(Cause),
    /// A page of a listing is refused.
    Listing(BadListing),
    /// Memory ran out.
    Memory,
    /// A lane brought back what cannot be the job that it was given.
    Stranger,
}

impl From<OutOfMemory> for Halt {
    ghost use Rattle.std.specs.Prelude.{◌≡◌};
    ghost use Rattle.planning_questions.specs.declared.halt.Halt.TheVariants.{Memory};

    ghost from_gives = { λ _ halt. halt ≡ Memory };

    fn from(_: OutOfMemory) -> Halt {
        Halt::Memory
    }
}
