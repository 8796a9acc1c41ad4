//! What a task is to do, by its settings and by the limits of a service, and the task that begins with it.
#![tactic(auto)]

mod states;
mod works;

pub use states::begin;
pub use works::work_of;
