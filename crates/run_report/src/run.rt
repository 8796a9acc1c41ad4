//! What a run comes to.

use s3_model::{
    BadListing, Cause, Journal, OutOfMemory, Outcomes, Plan, PlanFault, ProfileFault, WalkFault,
    Warnings, WordFault,
};

/// Why a run ended before its tasks, or beside them.
#[derive(Drop)]
pub enum Fatal {
    Words(WordFault),
    Profile(ProfileFault),
    EnvRead,
    Plan(PlanFault),
    Walk(WalkFault),
    Listing(BadListing),
    Answer(Cause),
    Memory,
    /// The command is one that the program does not do yet.
    NotYet,
}

impl From<OutOfMemory> for Fatal {
    ghost use Rattle.std.specs.Prelude.{◌≡◌};
    ghost use Rattle.run_report.specs.declared.run.Fatal.TheVariants.{Memory};

    ghost from_gives = { λ _ fatal. fatal ≡ Memory };

    fn from(_: OutOfMemory) -> Fatal {
        Fatal::Memory
    }
}

/// What a run came to. `status` is the exit status of the program.
#[derive(Drop)]
pub struct Run {
    pub status: u8,
    pub plan: Plan,
    pub outcomes: Outcomes,
    pub journal: Journal,
    pub warnings: Warnings,
    pub fatal: Option<Fatal>,
}
