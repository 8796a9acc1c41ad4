//! Lanes: each carries one job after the other over its connection, with its attempts and the pauses between them.
#![tactic(auto)]

mod attempt;
mod carrier;
mod lane;
mod tries;

pub use carrier::Carrier;
pub use jobs::{CancelCell, Carried, Ending, Job, What, ask_of};
pub use lane::Lane;
