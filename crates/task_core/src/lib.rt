//! One task as a machine of acts: which act is ready, what comes of it, and how the task ends.
#![tactic(auto)]

mod gains;
mod keep;
mod report;
mod shown;
mod state;

pub use state::TaskState;
