//! The requests of the planning, each one job of the first lane: a single one, and all pages of a listing; and the laws
//! that make them the trace and the planning of a run.
#![tactic(auto)]

mod answer;
mod halt;
mod laws;
mod listing;
mod single;

pub use halt::Halt;
pub use laws::{questions_are_planned, questions_are_traced};
pub use listing::list_all;
pub use single::ask;
