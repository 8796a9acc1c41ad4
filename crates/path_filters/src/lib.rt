//! Patterns of relative paths, and filters made of them.
#![tactic(auto)]

mod filters;
mod patterns;
mod pieces;
mod runs;
mod sets;
mod texts;

pub use filters::Filters;
pub use patterns::Pattern;
