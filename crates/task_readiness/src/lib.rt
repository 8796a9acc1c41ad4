//! Which act of a task is ready, by how far each act is.
#![tactic(auto)]

mod decided;
mod pieces;
mod ready;
mod singles;

pub use decided::{is_decided, is_idle, is_whole};
pub use ready::first_ready;
