//! The names at the end of paths and keys.
#![tactic(auto)]

mod names;

pub use names::{last_name, without_slash};
