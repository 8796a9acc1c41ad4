//! The moves of a run of many tasks, with the parts that it holds and without the journal.
#![tactic(auto)]

mod calling;
mod cancelling;
mod giving;
mod lending;
mod making;
mod move_core;
mod returning;
mod settling;

pub use giving::Given;
pub use move_core::{Means, MoveCore};
