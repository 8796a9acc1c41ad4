//! Runs of the whole program, one a line, each printed with what it came to.
//!
//! A line that begins with `== ` is a heading, and is printed as it is. It says what the lines behind it are: the file of
//! each part says how they are written.
#![tactic(auto)]

mod settings;
mod sockets;
mod worked;

use s3_model::OutOfMemory;
use std::alloc::AllocError;
use std::io;
use std::sync::Wait;
use std::thread::Threads;

/// What lines are.
#[derive(Clone, Copy)]
enum Part {
    Worked,
    Sockets,
    Unknown,
}

/// What the lines behind a heading are.
fn part_named(heading: &str) -> Part {
    match heading {
        "== worked rows" => Part::Worked,
        "== over sockets" => Part::Sockets,
        _ => Part::Unknown,
    }
}

/// What was made of a line of worked rows.
fn made(row: Result<String, OutOfMemory>) -> io::Result<String> {
    match row {
        Ok(row) => Ok(row),
        Err(OutOfMemory) => Err(AllocError.into()),
    }
}

/// What is printed of a line.
fn row_of<R>(rt: &R, host: &HostRuntime, part: Part, line: &str) -> io::Result<String>
where
    R: Threads + Wait + Clone + Send + Sync + Drop + 'static,
{
    match part {
        Part::Worked => made(worked::row_of(rt, host.alloc(), line)),
        Part::Sockets => sockets::row_of(rt, host, line),
        Part::Unknown => Ok(String::from_str(host.alloc(), "no heading")?),
    }
}

/// Prints a line, and answers what the next one is.
fn print_row<R>(rt: &R, host: &HostRuntime, part: Part, line: &str) -> io::Result<Part>
where
    R: Threads + Wait + Clone + Send + Sync + Drop + 'static,
{
    if line.starts_with("== ") {
        host.println(line)?;
        return Ok(part_named(line));
    }
    let row = row_of(rt, host, part, line)?;
    host.println(row.as_str())?;
    Ok(part)
}

fn print_rows<R>(rt: &R, host: &HostRuntime) -> io::Result<()>
where
    R: Threads + Wait + Clone + Send + Sync + Drop + 'static,
{
    let mut part = Part::Unknown;
    for line in host.lines(host.alloc()) {
        let line = line?;
        part = print_row(rt, host, part, line.as_str())?;
    }
    Ok(())
}

fn main(rt: HostRuntime) -> io::Result<()> {
    print_rows(&rt, &rt)
}
