//! Laws of runs that ask questions of their planning and nothing else, over lanes that were joined: they keep to the
//! schedule of a planning, and are carried.
#![tactic(auto)]

mod laws;

pub use laws::{questions_are_carried, questions_keep_planning};
