//! Laws that join the jobs of the lanes to the journal of a whole run.
#![tactic(auto)]

mod laws;

pub use laws::{lanes_are_journaled, lanes_end_as_shown};
