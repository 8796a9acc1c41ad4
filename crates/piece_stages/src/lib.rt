//! How far the acts of each piece of a task are, and which of them may come next.
#![tactic(auto)]

mod piece;
mod pieces;
mod stages;

pub use piece::PieceStages;
pub use pieces::Pieces;
pub use stages::{has_done, has_ended, is_out, may_be_given};
