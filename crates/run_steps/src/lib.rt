//! Laws on the jobs of the tasks of a run: those that are made with tasks suffice for each job that is given.
#![tactic(auto)]

mod laws;

pub use laws::{jobs_begin_with_tasks, jobs_follow_events};
