//! A law of histories of a task that differ in what tells nothing of the task; no code.
#![tactic(auto)]

mod laws;

pub use laws::alike_histories_say_the_same;
