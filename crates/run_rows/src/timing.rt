//! Runs of small uploads, and the time that they take.

ghost use Rattle.run_rows.specs.Runs.{IsFree};

use crate::runs::conductor::Conductor;
use crate::runs::count_moves;
use crate::runs::scenes::read_run;
use std::alloc::{AllocError, Global};
use std::io;
use std::time::Instant;

/// The nanoseconds and the number of the moves of a run.
fn run_timed(rt: &HostRuntime, alloc: Global, run: Conductor) -> io::Result<String>
    requires { IsFree run.manager run.lanes.items }
{
    let begun = Instant::now(rt);
    let counted = count_moves(alloc, run);
    let took = begun?.elapsed(rt)?.as_nanos();
    let Ok(Some(moves)) = counted else {
        return Err(AllocError.into());
    };
    Ok(format!(in alloc; "{took} {moves}")?)
}

/// The same of a run of so many tasks.
fn moves_timed(rt: &HostRuntime, alloc: Global, count: u32) -> io::Result<String> {
    let tasks = format!(in alloc; "{count} times upload 5")?;
    match read_run(alloc, tasks.as_str(), "10 1000 20") {
        Ok(Some(run)) => run_timed(rt, alloc, run),
        _ => Err(AllocError.into()),
    }
}

/// Does a run of as many uploads as each line says, and prints how long it took, and its moves. Whether each is a number.
pub(crate) fn time_rows(rt: &HostRuntime, alloc: Global) -> io::Result<bool> {
    for line in rt.lines(alloc) {
        let line = line?;
        let Ok(count) = line.as_str().parse() else {
            return Ok(false);
        };
        let timed = moves_timed(rt, alloc, count)?;
        println!(rt; "{timed}")?;
    }
    Ok(true)
}
