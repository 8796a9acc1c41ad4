//! Services in memory, one line of what is done to them a line, each printed with what comes of it.
//!
//! A line that begins with `== ` is a heading, and is printed as it is. It says what the lines behind it are: the file of
//! each part says how they are written.
//!
//! `service_rows HOST PORT BUCKET COUNT` reads no lines. It sends that many Puts to a service, one after the other over one
//! lane, and prints the nanoseconds and how many were stored, for `bench/puts`.
#![tactic(auto)]

mod lanes;
mod services;
mod steps;
mod texts;
mod timing;
mod uploads;

use s3_model::OutOfMemory;
use std::alloc::{AllocError, Global};
use std::process::ExitCode;
use std::rt::Clock;
use std::sync::Wait;
use std::thread::Threads;
use std::{io, mem};
use steps::desk::Desk;
use timing::{Wanted, read_wanted, time_puts, words_of};

/// The status where the words are not understood.
const REFUSED: u8 = 2;

/// What lines are.
#[derive(Clone, Copy)]
enum Part {
    Steps,
    Lanes,
    Unknown,
}

/// What the lines behind a heading are.
fn part_named(heading: &str) -> Part {
    match heading {
        "== steps" => Part::Steps,
        "== lanes" => Part::Lanes,
        _ => Part::Unknown,
    }
}

/// What is printed of a line.
fn row_of<R>(
    rt: &R,
    alloc: Global,
    desk: &mut Desk<R>,
    part: Part,
    line: &str,
) -> Result<String, AllocError>
where
    R: Threads + Wait + Clock + Clone + Send + Sync + Drop,
{
    match part {
        Part::Steps => steps::row_of(alloc, rt, desk, line),
        Part::Lanes => lanes::row_of(rt, alloc, line),
        Part::Unknown => String::from_str(alloc, "no heading"),
    }
}

/// Prints a line, and answers what the next one is.
fn print_row<R>(
    host: &HostRuntime,
    rt: &R,
    desk: &mut Desk<R>,
    part: Part,
    line: &str,
) -> io::Result<Part>
where
    R: Threads + Wait + Clock + Clone + Send + Sync + Drop,
{
    if line.starts_with("== ") {
        host.println(line)?;
        return Ok(part_named(line));
    }
    let row = row_of(rt, host.alloc(), desk, part, line)?;
    host.println(row.as_str())?;
    Ok(part)
}

fn print_rows<R>(host: &HostRuntime, rt: &R, desk: &mut Desk<R>) -> io::Result<u8>
where
    R: Threads + Wait + Clock + Clone + Send + Sync + Drop,
{
    let mut part = Part::Unknown;
    for line in host.lines(host.alloc()) {
        let line = line?;
        part = print_row(host, rt, desk, part, line.as_str())?;
    }
    Ok(0)
}

fn show_rows<R>(host: &HostRuntime, rt: &R) -> io::Result<u8>
where
    R: Threads + Wait + Clock + Clone + Send + Sync + Drop,
{
    match Desk::make(host.alloc(), rt) {
        Ok(mut desk) => {
            let shown = print_rows(host, rt, &mut desk);
            mem::drop(desk);
            shown
        }
        Err(OutOfMemory) => Err(AllocError.into()),
    }
}

/// Does what the words ask for, and answers the status.
fn status_of<R>(host: &HostRuntime, rt: &R, words: &[String]) -> io::Result<u8>
where
    R: Threads + Wait + Clock + Clone + Send + Sync + Drop,
{
    match read_wanted(words) {
        Wanted::Rows => show_rows(host, rt),
        Wanted::Timed(goal) => time_puts(host, host.alloc(), goal),
        Wanted::Nothing => Ok(REFUSED),
    }
}

fn main(rt: HostRuntime) -> io::Result<ExitCode> {
    let words = words_of(&rt, rt.alloc())?;
    let status = status_of(&rt, &rt, words.as_slice());
    mem::drop(words);
    Ok(ExitCode::from(status?))
}
