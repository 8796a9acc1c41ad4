//! Numbers in a row, of which the first least one is found in a logarithmic number of steps.
#![tactic(auto)]

mod tree;

pub use tree::MinimumTree;
