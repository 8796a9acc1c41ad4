//! Whole runs of a few tasks, with the moves of each and how its tasks ended.
//!
//! A line is `TASKS | LANES QUEUE BUFFERS | SCRIPT`, the tasks and the sayings of the script with commas between. A
//! task is a kind and a size in bytes, with `move` in front where the source goes, and `COUNT times` before all where
//! there are many. Below 8 bytes a task goes in one piece, from there on in pieces of 4 bytes and at most 4 of them,
//! else in longer ones; a job has 3 attempts. Each call on files is fine, each job is gained, and comes back from the
//! first lane that has one, but for what a script says, where each saying counts once:
//!
//! - `TASK ACT NUMBER CAME`: what comes of a call on files, without the number where the act has none: `fine`, `short`,
//!   `fault`, `memory` or `blocked/LENGTH`; or of a job: `lost` and `refused/STATUS/CODE`, as often as it was, the last
//!   attempt also `ok`, `lost/WHY` or a Get's `got/STATUS/LENGTH` or `got/STATUS/FIRST-LAST/SIZE`, or in its place
//!   `memory`; or in place of all `cut/REASON`;
//! - `cancel MOVES REASON`: the run is cancelled after so many moves;
//! - `back LANE`: the next job comes back from that lane.

pub(crate) mod conductor;
mod lane;
pub(crate) mod scenes;
mod shown;
mod steps;

ghost use Rattle.run_rows.specs.Runs.{IsFree};

use crate::lines::row;
use crate::runs::conductor::Conductor;
use crate::runs::scenes::read_run;
use crate::runs::shown::Shown;
use crate::runs::steps::steps;
use run_scripts::Script;
use s3_model::OutOfMemory;
use std::alloc::{AllocError, Global};
use std::mem;

/// Does a run, and shows how it ended.
fn finish(mut run: Conductor, script: &mut Script<'_>, shown: &mut Shown) -> Result<(), OutOfMemory>
    requires { IsFree run.manager run.lanes.items }
{
    match steps(&mut run, script, shown) {
        Ok(true) => {
            let (entries, outcomes) = run.finish();
            shown.end(entries, outcomes)
        }
        Ok(false) => {
            mem::drop(run);
            shown.stuck()
        }
        Err(OutOfMemory) => {
            mem::drop(run);
            Err(OutOfMemory)
        }
    }
}

/// The moves of a run, and how it ended.
fn moves_shown(
    alloc: Global,
    run: Conductor,
    script: &mut Script<'_>,
) -> Result<String, OutOfMemory>
    requires { IsFree run.manager run.lanes.items }
{
    let mut shown = Shown::make(alloc, false);
    match finish(run, script, &mut shown) {
        Ok(()) => Ok(shown.text),
        Err(OutOfMemory) => Err(OutOfMemory),
    }
}

fn run_shown(alloc: Global, run: Conductor, script: &str) -> Result<String, OutOfMemory>
    requires { IsFree run.manager run.lanes.items }
{
    match Script::read(alloc, script) {
        Ok(mut script) => {
            let shown = moves_shown(alloc, run, &mut script);
            mem::drop(script);
            shown
        }
        Err(OutOfMemory) => {
            mem::drop(run);
            Err(OutOfMemory)
        }
    }
}

/// What is printed of a run that a row names, by its script.
fn row_shown(
    alloc: Global,
    tasks: &str,
    config: &str,
    script: &str,
) -> Result<String, OutOfMemory> {
    match read_run(alloc, tasks, config) {
        Ok(Some(run)) => run_shown(alloc, run, script),
        Ok(None) => Ok(String::from_str(alloc, "no run")?),
        Err(OutOfMemory) => Err(OutOfMemory),
    }
}

/// What is printed of a line.
fn answer_of(alloc: Global, line: &str) -> Result<String, OutOfMemory> {
    let mut parts = line.split(" | ");
    let tasks = parts.next().unwrap_or("");
    let config = parts.next().unwrap_or("");
    let script = parts.next().unwrap_or("");
    row_shown(alloc, tasks, config, script)
}

/// A line with its run.
pub(crate) fn row_of(alloc: Global, line: &str) -> Result<String, AllocError> {
    match answer_of(alloc, line) {
        Ok(answer) => row(alloc, line, answer.as_str()),
        Err(OutOfMemory) => Err(AllocError),
    }
}

/// How many moves a run has. None where it does not come to its end.
fn moves_of(
    alloc: Global,
    run: &mut Conductor,
    script: &mut Script<'_>,
) -> Result<Option<u64>, OutOfMemory>
    requires { IsFree run.old.manager run.old.lanes.items }
{
    let mut shown = Shown::make(alloc, true);
    match steps(run, script, &mut shown) {
        Ok(true) => Ok(Some(shown.moves)),
        Ok(false) => Ok(None),
        Err(OutOfMemory) => Err(OutOfMemory),
    }
}

/// Does a run of which nothing is shown but how many moves it has. None where it does not come to its end.
pub(crate) fn count_moves(alloc: Global, mut run: Conductor) -> Result<Option<u64>, OutOfMemory>
    requires { IsFree run.manager run.lanes.items }
{
    let moves = match Script::read(alloc, "") {
        Ok(mut script) => {
            let moves = moves_of(alloc, &mut run, &mut script);
            mem::drop(script);
            moves
        }
        Err(OutOfMemory) => Err(OutOfMemory),
    };
    mem::drop(run);
    moves
}
