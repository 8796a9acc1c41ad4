//! Sets of numbers below a bound, whose least member is found at once.
#![tactic(auto)]

mod bits;
mod number_set;

pub use number_set::NumberSet;
