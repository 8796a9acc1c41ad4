//! A run of many tasks, each made, sent, called for and told in its turn, with its journal.
#![tactic(auto)]

mod calling;
mod due;
mod ending;
mod giving;
mod making;
mod manager;
mod naming;
mod returning;
mod shown;
mod steps;

pub use due::Due;
pub use manager::Manager;
