//! Laws on what a manager keeps of a run: at its end, and what its lanes have still to show for the schedule.
#![tactic(auto)]

mod laws;

pub use laws::{manager_ends_runs, manager_keeps_schedule};
