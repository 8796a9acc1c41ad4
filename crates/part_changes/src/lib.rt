//! What one more happening changes of the pieces of a task that hold a part; no code.
#![tactic(auto)]

mod laws;

pub use laws::parts_change;
