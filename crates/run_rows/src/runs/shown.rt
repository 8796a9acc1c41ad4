//! Moves as text, and what is printed of a run.

use crate::outcomes::{outcome_shown, with_value};
use manager_moves::Move;
use s3_model::{Op, OutOfMemory, Outcome};
use std::alloc::{AllocError, Global};

fn call_shown(alloc: Global, task: u32, name: &str) -> Result<String, AllocError> {
    format!(in alloc; "{task} {name}")
}

fn piece_shown(alloc: Global, task: u32, name: &str, number: u32) -> Result<String, AllocError> {
    format!(in alloc; "{task} {name} {number}")
}

fn given_shown(
    alloc: Global,
    task: u32,
    op: Op,
    number: u32,
    lane: u32,
) -> Result<String, AllocError> {
    format!(in alloc; "{task} {op:?} {number} to {lane}")
}

/// A move in one word or a few.
fn move_shown(alloc: Global, next: Move) -> Result<String, AllocError> {
    match next {
        Move::Make(task) => with_value(alloc, "make", &task),
        Move::Give {
            task,
            op,
            number,
            lane,
        } => given_shown(alloc, task, op, number, lane),
        Move::Read { task, number } => piece_shown(alloc, task, "Read", number),
        Move::Place { task, number } => piece_shown(alloc, task, "Place", number),
        Move::Assemble { task, .. } => call_shown(alloc, task, "Assemble"),
        Move::Rename { task, .. } => call_shown(alloc, task, "Rename"),
        Move::DropTemp { task, .. } => call_shown(alloc, task, "DropTemp"),
        Move::Remove { task, .. } => call_shown(alloc, task, "Remove"),
        Move::Stamp { task, .. } => call_shown(alloc, task, "Stamp"),
        Move::Line(task) => with_value(alloc, "line", &task),
        Move::Wait => String::from_str(alloc, "wait"),
        Move::End => String::from_str(alloc, "end"),
    }
}

/// What is printed of a run. Of one that is counted nothing is.
#[derive(Drop)]
pub(crate) struct Shown {
    alloc: Global,
    is_counted: bool,
    pub(crate) text: String,
    /// How many moves there were.
    pub(crate) moves: u64,
}

impl Shown {
    pub(crate) fn make(alloc: Global, is_counted: bool) -> Shown {
        Shown {
            alloc,
            is_counted,
            text: String::new(alloc),
            moves: 0,
        }
    }

    fn push(&mut self, text: &str) -> Result<(), OutOfMemory> {
        self.text.push_str(text)?;
        Ok(())
    }

    pub(crate) fn next(&mut self, next: Move) -> Result<(), OutOfMemory> {
        self.moves = self.moves.saturating_add(1);
        if self.is_counted {
            return Ok(());
        }
        let text = move_shown(self.alloc, next)?;
        if !self.text.is_empty() {
            self.push(" | ")?;
        }
        self.push(text.as_str())
    }

    pub(crate) fn outcome(&mut self, outcome: &Outcome) -> Result<(), OutOfMemory> {
        if self.is_counted {
            return Ok(());
        }
        let text = outcome_shown(self.alloc, outcome)?;
        self.push(" ")?;
        self.push(text.as_str())
    }

    pub(crate) fn end(&mut self, entries: usize, outcomes: usize) -> Result<(), OutOfMemory> {
        let text = format!(in self.alloc; " | {entries} entries, {outcomes} outcomes")?;
        self.push(text.as_str())
    }

    pub(crate) fn stuck(&mut self) -> Result<(), OutOfMemory> {
        self.push(" | stuck")
    }
}
