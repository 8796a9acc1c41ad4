//! What a row says of calls on files, jobs, cancels and lanes.

use row_words::{file_came, reason_of};
use s3_model::{Op, OutOfMemory, Reason};
use std::alloc::{AllocError, Global};
use task_acts::{Act, FileCame};

fn piece_words(alloc: Global, task: u32, name: &str, number: u32) -> Result<String, AllocError> {
    format!(in alloc; "{task} {name} {number} ")
}

fn job_words(alloc: Global, task: u32, op: Op, number: u32) -> Result<String, AllocError> {
    format!(in alloc; "{task} {op:?} {number} ")
}

fn call_words(alloc: Global, task: u32, name: &str) -> Result<String, AllocError> {
    format!(in alloc; "{task} {name} ")
}

fn cancel_words(alloc: Global, moves: u64) -> Result<String, AllocError> {
    format!(in alloc; "cancel {moves} ")
}

fn copy_of(alloc: Global, words: &str) -> Result<String, OutOfMemory> {
    match String::from_str(alloc, words) {
        Ok(copy) => Ok(copy),
        Err(_) => Err(OutOfMemory),
    }
}

/// The words with which a saying on an act begins.
fn act_words(alloc: Global, task: u32, act: Act) -> Result<String, AllocError> {
    match act {
        Act::Read { number } => piece_words(alloc, task, "Read", number),
        Act::Place { number } => piece_words(alloc, task, "Place", number),
        Act::Send { op, number } => job_words(alloc, task, op, number),
        Act::Assemble => call_words(alloc, task, "Assemble"),
        Act::Rename => call_words(alloc, task, "Rename"),
        Act::DropTemp => call_words(alloc, task, "DropTemp"),
        Act::Remove => call_words(alloc, task, "Remove"),
        Act::Stamp => call_words(alloc, task, "Stamp"),
    }
}

/// What a row says of a run. Each saying counts once.
#[derive(Drop)]
pub struct Script<'a> {
    alloc: Global,
    sayings: Vec<&'a str>,
}

impl<'a> Script<'a> {
    /// The sayings of a row, with commas between.
    pub fn read(alloc: Global, text: &'a str) -> Result<Script<'a>, OutOfMemory> {
        let mut sayings = Vec::new(alloc);
        for saying in text.split(", ") {
            if !saying.is_empty() {
                sayings.push(saying)?;
            }
        }
        Ok(Script { alloc, sayings })
    }

    /// What is behind these words in the first saying that begins with them.
    fn take(&mut self, words: &str) -> Option<&'a str> {
        let place = self
            .sayings
            .iter()
            .position(|saying| saying.starts_with(words))?;
        let saying = self.sayings.remove(place);
        saying.strip_prefix(words)
    }

    /// What is said behind these words, if anything is.
    fn said(&mut self, words: Result<String, AllocError>) -> Result<Option<&'a str>, OutOfMemory> {
        match words {
            Ok(words) => Ok(self.take(words.as_str())),
            Err(_) => Err(OutOfMemory),
        }
    }

    /// What comes of that call: it is fine, unless the script says otherwise. None where that is not understood.
    pub fn call(&mut self, task: u32, act: Act) -> Result<Option<FileCame>, OutOfMemory> {
        if self.sayings.is_empty() {
            return Ok(Some(FileCame::Fine));
        }
        let words = act_words(self.alloc, task, act);
        match self.said(words) {
            Ok(Some(came)) => Ok(file_came(came)),
            Ok(None) => Ok(Some(FileCame::Fine)),
            Err(OutOfMemory) => Err(OutOfMemory),
        }
    }

    /// The words of what comes of that job: what it asks for, unless the script says otherwise.
    pub fn job(&mut self, task: u32, op: Op, number: u32) -> Result<String, OutOfMemory> {
        if self.sayings.is_empty() {
            return copy_of(self.alloc, "ok");
        }
        let words = job_words(self.alloc, task, op, number);
        match self.said(words) {
            Ok(came) => copy_of(self.alloc, came.unwrap_or("ok")),
            Err(OutOfMemory) => Err(OutOfMemory),
        }
    }

    /// The reason of a cancel after so many moves.
    pub fn cancel(&mut self, moves: u64) -> Result<Option<Reason>, OutOfMemory> {
        if self.sayings.is_empty() {
            return Ok(None);
        }
        let words = cancel_words(self.alloc, moves);
        match self.said(words) {
            Ok(Some(reason)) => Ok(reason_of(reason)),
            Ok(None) => Ok(None),
            Err(OutOfMemory) => Err(OutOfMemory),
        }
    }

    /// The lane from which the next job comes back.
    pub fn lane(&mut self) -> Option<u32> {
        self.take("back ")?.parse().ok()
    }
}
