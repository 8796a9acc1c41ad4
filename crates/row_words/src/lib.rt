//! The words of rows: tasks, and what came of their jobs and of their calls on files.
#![tactic(auto)]

mod acts;
mod endings;
mod wishes;

pub use acts::{file_came, reason_of};
pub use endings::{Ended, can_end, ended_as};
pub use wishes::{Wish, wish_of};
