//! A law on runs of many tasks: they get on until every task has ended.
#![tactic(auto)]

mod law;

pub use law::runs_get_on;
