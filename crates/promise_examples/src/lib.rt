//! Examples of what the definitions of a run's promise let through, and of what they refuse.
#![tactic(auto)]

mod changes;
mod runs;
mod untried;

pub use changes::{refused, single_breaks};
pub use runs::{Reading, both_kinds, everything, failed_upload, given_again, two_pages};
pub use untried::{early_end, idleness};
