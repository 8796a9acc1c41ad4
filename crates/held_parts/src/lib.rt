//! The parts that the pieces of many tasks hold.
#![tactic(auto)]

mod held;

pub use held::{Held, HeldParts};
