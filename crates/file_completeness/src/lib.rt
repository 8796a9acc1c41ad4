//! A law on local files: what a service that does what it may owes to downloads and removals of files.
#![tactic(auto)]

mod law;

pub use law::complete;
