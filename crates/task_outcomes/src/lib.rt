//! A law: the outcome of a task has the cause that the talks of its jobs show.
#![tactic(auto)]

mod laws;

pub use laws::outcomes_have_causes;
