//! The law that joins the jobs of the lanes to the promise of a run.
#![tactic(auto)]

mod law;

pub use law::jobs_are_carried;
