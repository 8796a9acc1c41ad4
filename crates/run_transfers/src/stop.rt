//! Where a run stops.

use manager_moves::Move;

/// Why the loop over the moves of a run ends.
#[derive(Clone, Copy)]
pub enum Stop {
    /// The run came to its end.
    End,
    /// A lane brought back what cannot be the job that it was given.
    Stranger,
    /// That move is a call on files, which is to be made before the run goes on.
    Call(Move),
}
