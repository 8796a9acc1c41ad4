//! Laws that join what lanes carried to the trace of a conductor: each completion is that of its job, and the journal
//! shows the dispatches with the talks of the wires.
#![tactic(auto)]

mod laws;

pub use laws::{completions_are_own, traces_have_givings};
