//! Runs over lanes that carry nothing, of one task or of many, and runs of the executor, one a line, each printed with what
//! comes of it.
//!
//! A line that begins with `== ` is a heading, and is printed as it is. It says what the lines behind it are: the file of
//! each part says how they are written.
//!
//! `run_rows timed` reads a number a line, does a run of so many small uploads over 10 lanes, and prints how many
//! nanoseconds and moves it took.
#![tactic(auto)]

mod executor;
mod lines;
mod outcomes;
mod runs;
mod tasks;
mod timing;

use std::alloc::{AllocError, Global};
use std::process::ExitCode;
use std::sync::Wait;
use std::thread::Threads;
use std::{env, io};
use timing::time_rows;

/// The status where a word or a number is not understood.
const REFUSED: u8 = 2;

/// What lines are.
#[derive(Clone, Copy)]
enum Part {
    Tasks,
    Runs,
    Executor,
    Unknown,
}

/// What the lines behind a heading are.
fn part_named(heading: &str) -> Part {
    match heading {
        "== tasks" => Part::Tasks,
        "== runs" => Part::Runs,
        "== the executor" => Part::Executor,
        _ => Part::Unknown,
    }
}

/// What is printed of a line.
fn row_of<R: Threads + Wait + Clone + Send + Drop + 'static>(
    rt: &R,
    alloc: Global,
    clock: HostRuntime,
    part: Part,
    line: &str,
) -> Result<String, AllocError> {
    match part {
        Part::Tasks => tasks::row_of(alloc, line),
        Part::Runs => runs::row_of(alloc, line),
        Part::Executor => executor::row_of(rt, alloc, clock, line),
        Part::Unknown => String::from_str(alloc, "no heading"),
    }
}

/// Prints a line, and answers what the next one is.
fn print_row<R: Threads + Wait + Clone + Send + Drop + 'static>(
    host: HostRuntime,
    rt: &R,
    part: Part,
    line: &str,
) -> io::Result<Part> {
    if line.starts_with("== ") {
        host.println(line)?;
        return Ok(part_named(line));
    }
    let row = row_of(rt, host.alloc(), host, part, line)?;
    host.println(row.as_str())?;
    Ok(part)
}

fn print_rows<R: Threads + Wait + Clone + Send + Drop + 'static>(
    host: HostRuntime,
    rt: &R,
) -> io::Result<u8> {
    let mut part = Part::Unknown;
    for line in host.lines(host.alloc()) {
        let line = line?;
        part = print_row(host, rt, part, line.as_str())?;
    }
    Ok(0)
}

/// The status of a run of the lines' numbers.
fn status_timed(rt: &HostRuntime, alloc: Global) -> io::Result<u8> {
    Ok(if time_rows(rt, alloc)? { 0 } else { REFUSED })
}

fn main(rt: HostRuntime) -> io::Result<ExitCode> {
    let alloc = rt.alloc();
    let mut words = Vec::new(alloc);
    for word in env::args(&rt)?.skip(1) {
        words.push(word)?;
    }
    let status = match words.as_slice() {
        [] => print_rows(rt, &rt)?,
        [word] if word.as_str() == "timed" => status_timed(&rt, alloc)?,
        _ => REFUSED,
    };
    Ok(ExitCode::from(status))
}
