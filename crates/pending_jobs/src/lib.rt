//! The jobs that were given to lanes and have not come back, for whoever gives them and takes them back.
#![tactic(auto)]

mod pending;
mod pending_jobs;

pub use pending::Pending;
pub use pending_jobs::PendingJobs;
