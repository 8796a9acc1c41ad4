//! Dry runs that ask something of a service: what a command would do is planned over a lane and shown, and nothing is
//! done.
#![tactic(auto)]

mod endings;
mod fatal;
mod planning;
mod run;
mod shown;
mod warnings;

pub use run::execute_served_dry;
