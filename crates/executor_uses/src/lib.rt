//! The executor as callers use it: an answer that is exact.
#![tactic(auto)]

mod one_lane;
mod single;

pub use one_lane::doubled;
pub use single::carried_apart;
