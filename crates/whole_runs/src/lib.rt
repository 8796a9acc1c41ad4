//! Laws that join a run's moves with the schedule of its tasks: what lanes and files have still to show.
#![tactic(auto)]

mod laws;

pub use laws::{carried_jobs_are_asked, ended_runs_keep_schedule, jobs_are_asked, runs_end_over};
