//! What `cp`, `mv`, `sync` and `rm` are going to do, where a service is asked and local files are looked at.
#![tactic(auto)]

mod dests;
mod found;
mod halted;
mod laws;
mod local;
mod looked;
mod planned;
mod served;
mod sources;
mod tasks;

pub use halted::Halted;
pub use laws::plans_ask_for_needs;
pub use planned::{Planned, plan_served};
