//! The laws that join lanes and ready acts as they are kept to the rule by which a run of many tasks moves; no code.
#![tactic(auto)]

mod laws;

pub use laws::{lanes_hold, ready_acts_are_first};
