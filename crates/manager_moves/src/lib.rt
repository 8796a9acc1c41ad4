//! The moves of a run of many tasks, and the rule by which what happened says which one is next.
#![tactic(auto)]

mod examples;
mod laws;
mod moves;

pub use examples::{buffers, cancels, lanes, queues, uploads};
pub use laws::{rule_keeps_limits, shares_are_histories};
pub use moves::Move;
