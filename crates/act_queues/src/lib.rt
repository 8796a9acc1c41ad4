//! Which task has an act ready, by what the act needs, and the least task that can move.
#![tactic(auto)]

mod act_queues;

pub use act_queues::{ActQueues, ActSort};
