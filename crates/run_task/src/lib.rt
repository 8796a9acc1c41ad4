//! The one task of a run.
#![tactic(auto)]

mod task;

pub use task::execute_upload;
