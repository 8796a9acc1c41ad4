//! Laws of a table of the pieces that hold a part, event by event; no code.
#![tactic(auto)]

mod laws;

pub use laws::{calls_find_parts, tables_follow_runs};
