//! A planning over lanes: wires become the lanes of a desk, at which its questions are asked, and each stands in its
//! place again.
#![tactic(auto)]

mod laws;
mod planning_desk;

pub use laws::desks_are_joined;
pub use planning_desk::PlanningDesk;
