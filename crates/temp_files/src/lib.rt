//! Files that are put together from ranges in any order, and replace their destination only when they are whole.
#![tactic(auto)]

mod assembly;

pub use assembly::Assembly;
