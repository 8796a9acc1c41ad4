//! Laws on the jobs of a task: what is made with it suffices for each job that it is ready for.
#![tactic(auto)]

mod laws;

pub use laws::{ready_jobs_are_formed, shares_follow_histories};
