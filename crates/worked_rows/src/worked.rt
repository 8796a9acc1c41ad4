//! Worked rows: command lines with settings and answers, with what a run of each came to.
//!
//! A line is a number and fields `name=value`, parted by semicolons: `words` for each command that is run, one behind the
//! other; `variables`, how many of id, secret and region are set; `config` and `credentials`; `unreadable`, where the first
//! settings file cannot be read; `room`, how many bytes each output takes; `answer` for each talk. In a line `¶` stands for
//! the end of a line of HTTP, `§` for that of a file, and `|12×ab|` for twelve times `ab`. The files are `a.txt`, of the
//! five bytes `hello`, `d/b.txt`, the trees `t` and `e`, and `dev` and `e/pipe`, which are no files.

mod fields;
mod given;
mod play;
mod shown;

use crate::worked::fields::{value_in, written};
use crate::worked::given::wires;
use crate::worked::play::play;
use crate::worked::shown::push_talks;
use outside_memory::ScriptWire;
use s3_model::OutOfMemory;
use std::alloc::Global;
use std::sync::Wait;
use std::thread::Threads;

/// Runs the command of a line over the wires of its row, and adds what it came to.
fn push_play<R>(
    rt: &R,
    alloc: Global,
    shown: &mut String,
    row: &str,
    line: &str,
    wires: &mut Vec<ScriptWire>,
) -> Result<(), OutOfMemory>
where
    R: Threads + Wait + Clone + Send + Sync + Drop + 'static,
{
    let seen = play(rt, alloc, row, line, wires)?;
    Ok(shown.push_str(seen.as_str())?)
}

/// Runs the commands of a row over its wires, and adds what each came to.
fn push_plays<R>(
    rt: &R,
    alloc: Global,
    shown: &mut String,
    row: &str,
    wires: &mut Vec<ScriptWire>,
) -> Result<(), OutOfMemory>
where
    R: Threads + Wait + Clone + Send + Sync + Drop + 'static,
{
    for field in row.split("; ") {
        if let Some(line) = value_in(field, "words") {
            push_play(rt, alloc, shown, row, line, wires)?;
        }
    }
    Ok(())
}

/// Adds what the commands of a row came to over its wires, and what these then sent.
fn push_runs<R>(
    rt: &R,
    alloc: Global,
    shown: &mut String,
    row: &str,
    wires: &mut Vec<ScriptWire>,
) -> Result<(), OutOfMemory>
where
    R: Threads + Wait + Clone + Send + Sync + Drop + 'static,
{
    push_plays(rt, alloc, shown, row, wires)?;
    push_talks(alloc, shown, wires.as_slice())
}

fn push_row<R>(rt: &R, alloc: Global, shown: &mut String, row: &str) -> Result<(), OutOfMemory>
where
    R: Threads + Wait + Clone + Send + Sync + Drop + 'static,
{
    let mut wires = wires(alloc, row)?;
    push_runs(rt, alloc, shown, row, &mut wires)
}

/// What is printed of a line that is written out.
fn written_row<R>(rt: &R, alloc: Global, line: &str) -> Result<String, OutOfMemory>
where
    R: Threads + Wait + Clone + Send + Sync + Drop + 'static,
{
    let (number, row) = line.split_once(' ').unwrap_or((line, ""));
    let mut shown = String::from_str(alloc, number)?;
    push_row(rt, alloc, &mut shown, row)?;
    Ok(shown)
}

/// What is printed of a line.
pub(crate) fn row_of<R>(rt: &R, alloc: Global, spelled: &str) -> Result<String, OutOfMemory>
where
    R: Threads + Wait + Clone + Send + Sync + Drop + 'static,
{
    let line = written(alloc, spelled)?;
    written_row(rt, alloc, line.as_str())
}
