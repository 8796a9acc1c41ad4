//! What a task keeps of the jobs that came: those that are given again, and the entity tags of its parts.
#![tactic(auto)]

mod kept;
mod tags;

pub use kept::{KeptJobs, slot};
pub use tags::PartTags;
