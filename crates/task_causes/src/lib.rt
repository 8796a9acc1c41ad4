//! What comes of the acts of a task: whether a job was cut short, how far its act is then, and the cause of a failure.
#![tactic(auto)]

mod causes;
mod endings;
mod replies;
mod stages;

pub use causes::{ended_cause, file_cause};
pub use endings::is_cut_short;
pub use stages::{carried_stage, file_stage, given_stage};
