//! What the tasks of a run need of it: room in its journal, and in its parts.
#![tactic(auto)]

mod law;
mod needs;

pub use law::{journals_fit, runs_are_finite};
pub use needs::{Needs, needs_of};
