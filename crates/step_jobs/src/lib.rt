//! The jobs of a task: each act that sends a request has one, formed from what was made with the task.
#![tactic(auto)]

mod law;
mod step_jobs;

pub use law::ready_steps_have_requests;
pub use step_jobs::{Given, StepJobs, range_of};
