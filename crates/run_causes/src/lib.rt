//! Laws on what stopped the jobs of a run, and on what its outcomes tell of that: want of memory, cancels, failures of
//! their tasks.
#![tactic(auto)]

mod laws;

pub use laws::{none_is_cancelled_by_failing, outcomes_tell_settings, runs_have_causes};
