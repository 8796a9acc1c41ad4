//! One task of a run: the place for its state, what its act needs, and the parts of its pieces.
#![tactic(auto)]

mod forms;
mod freeing;
mod parts;
mod slot;
mod states;

pub use forms::{call_move, giving_move};
pub use freeing::{cancel_task, free_parts};
pub use parts::{free_part, part_for};
pub use slot::{Settled, TaskSlot, comes_down, settle, sort_of};
pub use states::{boxed, call, tell};
