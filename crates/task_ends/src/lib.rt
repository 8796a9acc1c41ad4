//! What stopped a task, and how it ends by that.
#![tactic(auto)]

mod causes;
mod last_cause;

pub use causes::Causes;
