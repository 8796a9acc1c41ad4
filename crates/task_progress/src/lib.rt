//! A law on tasks: each ends, whatever comes back.
#![tactic(auto)]

mod law;

pub use law::each_task_ends;
