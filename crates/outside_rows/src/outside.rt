//! Calls of wires, outputs and environments, in memory and of the system, with the answer of each.
//!
//! A line is what is called, how it is made, a colon, and the calls in their order, parted by semicolons. In a text `¶`
//! stands for the end of a line of HTTP.

mod calls;
mod environments;
mod outputs;
mod scripts;
mod sockets;
mod wires;

use crate::lines::word_and_rest;
use crate::rows::add;
use std::io;

/// Adds the answers to the calls of a line.
fn add_answers(rt: &HostRuntime, row: &mut String, made: &str, calls: &str) -> io::Result<()> {
    let (kind, how) = word_and_rest(made);
    match kind {
        "script" => scripts::add_answers(rt.alloc(), row, how, calls),
        "socket" => return sockets::add_answers(rt, row, how, calls),
        "output" => outputs::add_answers(rt, row, how, calls),
        _ => return environments::add_answers(rt, row, how, calls),
    }
    Ok(())
}

/// Adds the calls of a line with their answers.
pub(crate) fn add_row(rt: &HostRuntime, row: &mut String, line: &str) -> io::Result<()> {
    let (made, calls) = line.split_once(": ").unwrap_or((line, ""));
    add(row, made);
    add_answers(rt, row, made, calls)
}
