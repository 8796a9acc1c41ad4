//! The loop that carries out a plan over the lanes of a desk.
#![tactic(auto)]

mod cells;
mod conductor;
mod lanes;
mod moves;
mod stop;

pub use conductor::Conductor;
pub use lanes::take_rest;
pub use stop::Stop;
