//! What a command is going to do, from the entries of both sides.
#![tactic(auto)]

mod draft;
mod errand;
mod judge;
mod names;
mod places;
mod plans;
mod tasks;
mod times;
mod turns;

pub use errand::Errand;
pub use plans::{plan_copy, plan_remove, plan_sync};
pub use times::differs;
