//! Calls of wires.

use crate::lines::word_and_rest;
use crate::rows::{add, add_came, add_shown};
use s3_outside::Wire;

/// 24 May 2013, the time of wires in memory.
pub(crate) const MOMENT: u64 = 1_369_353_600;

/// Takes up to so many bytes, and eight at most.
fn take<W: Wire>(wire: &mut W, row: &mut String, text: &str) {
    let mut into = [0u8; 8];
    let most = text.parse::<usize>().unwrap_or(8).min(8);
    match wire.take(&mut into[..most]) {
        Ok(count) => add_came(row, into.get(..count).unwrap_or(&[])),
        Err(fault) => add_shown(row, fault),
    }
}

/// Adds what a call that answers nothing comes to.
fn call_quietly<W: Wire>(wire: &mut W, row: &mut String, call: &str) {
    let (name, text) = word_and_rest(call);
    match name {
        "finish" => wire.finish(text == "kept"),
        "pause" => wire.pause(text.parse::<u32>().unwrap_or(0)),
        _ => return add(row, "?"),
    }
    add(row, "done");
}

/// Adds what a call of a wire answers, whose talks are with that service.
pub(crate) fn add_answer<W: Wire>(
    wire: &mut W,
    row: &mut String,
    service: (&str, u16),
    call: &str,
) {
    let (name, text) = word_and_rest(call);
    match name {
        "begin" => add_shown(row, wire.begin(service.0, service.1)),
        "send" => add_shown(row, wire.send(text.as_bytes())),
        "take" => take(wire, row, text),
        "moment" => add_shown(row, wire.moment()),
        "later" => add_shown(row, wire.moment() > MOMENT),
        _ => call_quietly(wire, row, call),
    }
}
