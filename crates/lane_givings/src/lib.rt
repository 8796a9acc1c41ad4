//! Laws on the jobs that are out in the lanes of a run: they stand there as they were given, and may come back.
#![tactic(auto)]

mod laws;

pub use laws::{jobs_are_as_given, jobs_are_out};
