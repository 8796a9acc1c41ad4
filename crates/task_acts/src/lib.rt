//! The acts of one task, and the rule by which its history says which is ready, how the task ends and why.
#![tactic(auto)]

mod acts;
mod examples;
mod laws;
mod work;

pub use acts::{Act, FileCame, Stage};
pub use examples::{downloads, files, moves, refusals, uploads};
pub use laws::rule_keeps_order;
pub use work::Work;
