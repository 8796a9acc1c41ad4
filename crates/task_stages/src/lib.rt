//! How far each act of a task is.
#![tactic(auto)]

mod singles;
mod task_stages;

pub use singles::Singles;
pub use task_stages::TaskStages;
