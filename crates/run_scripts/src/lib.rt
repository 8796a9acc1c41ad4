//! What a row says of a run: its tasks and settings, and what comes of its calls on files, its jobs and cancels.
#![tactic(auto)]

mod returning;
mod script;
mod settings;
mod tasks;

pub use returning::come_back;
pub use script::Script;
pub use settings::{limits, read_config};
pub use tasks::read_tasks;
