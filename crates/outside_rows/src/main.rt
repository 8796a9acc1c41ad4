//! Calls of what a run meets of its host and of a service, one a line, each printed with its answer.
//!
//! A line that begins with `== ` is a heading, and is printed as it is. It says what the lines behind it are: the file of
//! each part says how they are written.
#![tactic(auto)]

mod answers;
mod bytes;
mod exchanges;
mod files;
mod lines;
mod outside;
mod rows;
mod sessions;
mod settings;

use files::chosen::Chosen;
use sessions::Session;
use std::alloc::{AllocError, Global};
use std::io;

/// What lines are.
#[derive(Clone, Copy)]
enum Part {
    Outside,
    Files,
    Settings,
    Exchanges,
    Answers,
    Unknown,
}

/// What the lines behind a heading are.
fn part_named(heading: &str) -> Part {
    match heading {
        "== wires, outputs and environments" => Part::Outside,
        "== files" => Part::Files,
        "== settings" => Part::Settings,
        "== exchanges" => Part::Exchanges,
        "== answers" => Part::Answers,
        _ => Part::Unknown,
    }
}

/// The files that calls go to, and the service with which exchanges are.
#[derive(Drop)]
struct Host {
    files: Chosen,
    session: Session,
}

impl Host {
    fn make(rt: &HostRuntime) -> io::Result<Host> {
        let Ok(session) = Session::make(rt.alloc()) else {
            return Err(AllocError.into());
        };
        let files = Chosen::make(rt)?;
        Ok(Host { files, session })
    }

    /// Adds what is printed of a line that reaches no system.
    fn add_row_in_memory(&mut self, alloc: Global, part: Part, row: &mut String, line: &str) {
        match part {
            Part::Settings => settings::add_row(alloc, row, line),
            Part::Exchanges => exchanges::add_row(alloc, &mut self.session, row, line),
            Part::Answers => answers::add_row(alloc, &mut self.session, row, line),
            _ => rows::add(row, "no heading"),
        }
    }

    /// Adds what is printed of a line.
    fn add_row(
        &mut self,
        rt: &HostRuntime,
        part: Part,
        row: &mut String,
        line: &str,
    ) -> io::Result<()> {
        match part {
            Part::Outside => return outside::add_row(rt, row, line),
            Part::Files => files::add_row(rt, &mut self.files, row, line),
            _ => self.add_row_in_memory(rt.alloc(), part, row, line),
        }
        Ok(())
    }
}

/// Prints a line, and answers what the next one is.
fn print_row(rt: &HostRuntime, host: &mut Host, part: Part, line: &str) -> io::Result<Part> {
    if line.starts_with("== ") {
        rt.println(line)?;
        return Ok(part_named(line));
    }
    let mut row = String::new(rt.alloc());
    host.add_row(rt, part, &mut row, line)?;
    rt.println(row.as_str())?;
    Ok(part)
}

fn print_rows(rt: &HostRuntime, host: &mut Host) -> io::Result<()> {
    let mut part = Part::Unknown;
    for line in rt.lines(rt.alloc()) {
        let line = line?;
        part = print_row(rt, host, part, line.as_str())?;
    }
    Ok(())
}

fn main(rt: HostRuntime) -> io::Result<()> {
    let mut host = Host::make(&rt)?;
    print_rows(&rt, &mut host)
}
