//! Dry runs: what a command would do is planned and shown, and nothing is done.
#![tactic(auto)]

mod endings;
mod errands;
mod found;
mod outcomes;
mod plans;
mod printed;
mod run;
mod warnings;

pub use plans::{Planned, plan_here};
pub use run::execute_dry;
