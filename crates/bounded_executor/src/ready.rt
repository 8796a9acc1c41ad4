//! Which lanes may have an outcome.

use crate::bell::Bell;
use std::alloc::{AllocError, Global};
use std::sync::Wait;
use std::sync::atomic::{AtomicU32, AtomicU64, Ordering};

// Which lanes may have an outcome: their threads mark them, and the desk looks at these alone.
#[derive(Drop)]
pub(crate) struct ReadyLanes {
    // A bit for each lane.
    marks: Vec<AtomicU64>,
    // Where the desk's next look begins, so that lanes take turns.
    turn: AtomicU32,
    bell: Bell,
}

impl ReadyLanes {
    pub(crate) fn new(alloc: Global, lanes: usize) -> Result<ReadyLanes, AllocError> {
        let mut marks = Vec::new(alloc);
        for _word in 0..lanes.div_ceil(64) {
            marks.push(AtomicU64::new(0))?;
        }
        Ok(ReadyLanes {
            marks,
            turn: AtomicU32::new(0),
            bell: Bell::new(),
        })
    }

    // Marks a lane whose outcome was sent, and wakes the desk.
    pub(crate) fn mark(&self, lane: usize) {
        let bit = 1u64 << (lane % 64);
        if let Some(word) = self.marks.get(lane / 64) {
            if word.load(Ordering::SeqCst) & bit == 0 {
                word.fetch_or(bit, Ordering::SeqCst);
            }
        }
        self.bell.ring();
    }

    // Takes a lane's mark away. A look at the lane after this finds what was sent before the mark was set again.
    pub(crate) fn unmark(&self, lane: usize) {
        if let Some(word) = self.marks.get(lane / 64) {
            word.fetch_and(!(1u64 << (lane % 64)), Ordering::SeqCst);
        }
    }

    // The next marked lane in turn.
    pub(crate) fn next(&self) -> Option<u32> {
        let turn = self.turn.load(Ordering::SeqCst);
        let next = match self.lowest_from(turn) {
            Some(lane) => Some(lane),
            None => self.lowest_from(0),
        };
        if let Some(lane) = next {
            self.turn.store(lane.wrapping_add(1), Ordering::SeqCst);
        }
        next
    }

    fn lowest_from(&self, from: u32) -> Option<u32> {
        let mut looked_for = u64::MAX << (from % 64);
        for index in from as usize / 64..self.marks.len() {
            let marked = self.marks[index].load(Ordering::SeqCst) & looked_for;
            if marked != 0 {
                let first = u32::try_from(index).ok()?.wrapping_mul(64);
                return Some(first.wrapping_add(marked.trailing_zeros()));
            }
            looked_for = u64::MAX;
        }
        None
    }

    // Sleeps until a lane is marked. It may return for no reason.
    pub(crate) fn wait<R: Wait>(&self, rt: &R) {
        self.bell.wait(rt);
    }
}
