//! Laws of runs that ask questions of their planning over a desk and give no job of a task: listings, dry runs, and
//! commands that end in their planning. They keep their promise.
#![tactic(auto)]

mod laws;

pub use laws::{desk_runs_keep_promise, lanes_gain};
