//! What an exchange came to, as text.

use crate::exchanges::spelled::{LARGE, large_byte};
use crate::rows::{add, add_shown};
use crate::sessions::{Request, Session};
use outside_memory::ScriptWire;
use s3_model::{Answered, Talked};
use std::alloc::Global;

fn is_large_body(bytes: &[u8]) -> bool {
    for (place, byte) in bytes.iter().enumerate() {
        if *byte != large_byte(place) {
            return false;
        }
    }
    bytes.len() == LARGE
}

/// Adds a body that is text, or whether it is the large one.
fn add_body(row: &mut String, bytes: &[u8]) {
    match str::from_utf8(bytes) {
        Ok(text) => add_shown(row, text),
        Err(_) if is_large_body(bytes) => add(row, "the large body"),
        Err(_) => add(row, "another body"),
    }
}

/// Adds the body, in front of ` in place` where it stands in the place that the request has for it.
fn add_bodies(row: &mut String, own: &[u8], placed: &[u8]) {
    if placed.is_empty() || !own.is_empty() {
        return add_body(row, own);
    }
    add_body(row, placed);
    add(row, " in place");
}

fn add_answered(row: &mut String, answered: &Answered, placed: &[u8]) {
    add_shown(row, answered.status);
    add(row, " ");
    add_shown(row, answered.length);
    add(row, " ");
    add_shown(row, answered.taken);
    add(row, " ");
    add_bodies(row, answered.body.as_slice(), placed);
}

/// Adds what an exchange came to, with the place of its body.
fn add_talked(row: &mut String, talked: &Talked, placed: &[u8]) {
    match talked {
        Talked::Answered(answered) => add_answered(row, answered, placed),
        Talked::Broken(why) => add_shown(row, *why),
    }
}

/// Adds what one exchange comes to.
pub(crate) fn add_exchange(
    alloc: Global,
    session: &mut Session,
    row: &mut String,
    wire: &mut ScriptWire,
    request: Request,
) {
    session.play(alloc, wire, request);
    add_talked(row, session.last(), session.placed());
}

fn etag_of(answered: &Answered) -> &str {
    match &answered.etag {
        Some(etag) => etag.as_str(),
        None => "none",
    }
}

fn add_head(row: &mut String, answered: &Answered) {
    add(row, "keep ");
    add_shown(row, answered.keep);
    add(row, " range ");
    add_shown(row, answered.range);
    add(row, " micros ");
    add_shown(row, answered.micros);
    add(row, " etag ");
    add(row, etag_of(answered));
}

/// Adds what the head of an answer says.
pub(crate) fn add_head_of(row: &mut String, talked: &Talked) {
    match talked {
        Talked::Answered(answered) => add_head(row, answered),
        Talked::Broken(_) => add(row, "no answer"),
    }
}
