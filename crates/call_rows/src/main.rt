//! Calls that need their words alone, one a line, each printed with its answer.
//!
//! A line that begins with `== ` is a heading, and is printed as it is. It says what the lines behind it are: the file of
//! each part says how they are written.
#![tactic(auto)]

mod commands;
mod documents;
mod errands;
mod leaves;
mod lines;
mod models;
mod plans;
mod printed;
mod requests;

use s3_requests::Signer;
use std::alloc::{AllocError, Global};
use std::io;

/// What lines are.
#[derive(Clone, Copy)]
enum Part {
    Leaves,
    Commands,
    Models,
    Printed,
    Documents,
    Requests,
    Plans,
    Errands,
    Unknown,
}

/// What the lines behind a heading are.
fn part_named(heading: &str) -> Part {
    match heading {
        "== paths, patterns and values" => Part::Leaves,
        "== command lines" => Part::Commands,
        "== texts, lists and pieces" => Part::Models,
        "== printed lines" => Part::Printed,
        "== documents" => Part::Documents,
        "== requests" => Part::Requests,
        "== plans" => Part::Plans,
        "== errands" => Part::Errands,
        _ => Part::Unknown,
    }
}

/// Adds what is printed of a line.
fn push_row(alloc: Global, row: &mut String, part: Part, line: &str) -> Result<(), AllocError> {
    match part {
        Part::Leaves => leaves::push_row(alloc, row, line),
        Part::Commands => commands::push_row(alloc, row, line),
        Part::Models => models::push_row(alloc, row, line),
        Part::Printed => printed::push_row(alloc, row, line),
        Part::Documents => documents::push_row(alloc, row, line),
        Part::Requests => requests::push_row(alloc, row, line),
        Part::Plans => plans::push_row(alloc, row, line),
        Part::Errands => errands::push_row(alloc, row, line),
        Part::Unknown => row.push_str("no heading"),
    }
}

/// Prints a line, and answers what the next one is.
fn print_row(rt: &HostRuntime, part: Part, line: &str) -> io::Result<Part> {
    if line.starts_with("== ") {
        rt.println(line)?;
        return Ok(part_named(line));
    }
    let mut row = String::new(rt.alloc());
    push_row(rt.alloc(), &mut row, part, line)?;
    rt.println(row.as_str())?;
    Ok(part)
}

fn crosses<T: Send + Sync>() {}

fn main(rt: HostRuntime) -> io::Result<()> {
    // A signer is made on one thread and used on another.
    crosses::<Signer>();
    let mut part = Part::Unknown;
    for line in rt.lines(rt.alloc()) {
        let line = line?;
        part = print_row(&rt, part, line.as_str())?;
    }
    Ok(())
}
