//! The memory that reading answers takes.

use crate::incoming::Incoming;
use answer_grammar::HeadRoom;
use s3_model::OutOfMemory;
use std::alloc::Global;

/// A place for what comes from a wire, and for where header lines stand. One serves any number of exchanges, one after
/// the other; nothing stays in it.
#[derive(Drop)]
pub struct AnswerRoom {
    pub(crate) incoming: Incoming,
    pub(crate) heads: HeadRoom,
}

impl AnswerRoom {
    /// Room for any answer, some 800 KiB.
    pub fn make(alloc: Global) -> Result<AnswerRoom, OutOfMemory> {
        Ok(AnswerRoom {
            incoming: Incoming::make(alloc)?,
            heads: HeadRoom::make(alloc)?,
        })
    }
}
