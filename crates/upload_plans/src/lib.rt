//! Which commands are done by now, and what copying one local file up comes to before anything is read or sent.
#![tactic(auto)]

mod command;
mod plan;

pub use command::{Places, is_move, is_offline_dry_run, is_removal, is_unbuilt, places_of};
pub use plan::{Fate, plan_upload};
