//! Laws of the parts that the pieces of a run hold.
#![tactic(auto)]

mod law;

pub use law::tables_count;
