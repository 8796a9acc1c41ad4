//! The calls that lines name.

use crate::exchanges::cuts::{add_cuts, add_pieces};
use crate::exchanges::shown::{add_exchange, add_head_of};
use crate::exchanges::spelled::{LARGE, large_answer, written};
use crate::lines::{count, word_and_rest};
use crate::rows::{add, add_shown};
use crate::sessions::{Request, Session, failing_calls, pair, single, wire};
use outside_memory::{ScriptWire, TalkEnding, TalkRecord};
use std::alloc::Global;

/// The request of every exchange.
const SENT: &[u8; 23] = b"PUT / HTTP/1.1\r\n\r\nhello";

const PLAIN: Request = Request {
    is_head: false,
    limit: None,
};

const HEAD_ONLY: Request = Request {
    is_head: true,
    limit: None,
};

const LIMITED: Request = Request {
    is_head: false,
    limit: Some(5),
};

const OF_A_LARGE_BODY: Request = Request {
    is_head: false,
    limit: Some(LARGE as u64),
};

/// One number of bytes, or the least and the greatest of several.
fn sizes_of(text: &str) -> (usize, usize) {
    let (least, most) = text.split_once('-').unwrap_or((text, text));
    (count(least), count(most))
}

/// Adds what an answer comes to in pieces.
fn add_spelled(
    alloc: Global,
    session: &mut Session,
    row: &mut String,
    request: Request,
    given: &str,
) {
    let (sizes, spelled) = word_and_rest(given);
    let answer = written(alloc, spelled);
    add_pieces(
        alloc,
        session,
        row,
        request,
        answer.as_bytes(),
        sizes_of(sizes),
    );
}

fn add_large(alloc: Global, session: &mut Session, row: &mut String, given: &str) {
    let (sizes, spelled) = word_and_rest(given);
    let answer = large_answer(alloc, spelled);
    add_pieces(
        alloc,
        session,
        row,
        OF_A_LARGE_BODY,
        &answer,
        sizes_of(sizes),
    );
}

fn add_life(row: &mut String, wire: &ScriptWire) {
    add(row, ", alive ");
    add_shown(row, wire.is_alive());
}

/// A wire of which a call fails. It moves at most eight bytes at a time.
fn failing_wire(alloc: Global, given: &str) -> ScriptWire {
    let (call, given) = word_and_rest(given);
    let (number, spelled) = word_and_rest(given);
    let answer = written(alloc, spelled);
    let failing = failing_calls(alloc, call, count(number));
    let mut wire = ScriptWire::make(alloc, single(alloc, answer.as_bytes()), failing, 0);
    wire.move_at_most(8);
    wire
}

/// Adds what comes of a wire of which a call fails, and whether it is alive then.
fn add_failing(alloc: Global, session: &mut Session, row: &mut String, given: &str) {
    let mut wire = failing_wire(alloc, given);
    add_exchange(alloc, session, row, &mut wire, PLAIN);
    add_life(row, &wire);
}

/// Adds whether the connection is kept after an answer.
fn add_kept(alloc: Global, session: &mut Session, row: &mut String, spelled: &str) {
    let answer = written(alloc, spelled);
    let mut wire = wire(alloc, answer.as_bytes(), 100);
    session.play(alloc, &mut wire, PLAIN);
    add_shown(row, wire.is_alive());
}

/// A wire with an answer, and a second one without a body.
fn wire_of_two(alloc: Global, spelled: &str) -> ScriptWire {
    let first = written(alloc, spelled);
    let answers = pair(alloc, first.as_bytes(), b"HTTP/1.1 204 No\r\n\r\n");
    ScriptWire::make(alloc, answers, Vec::new(alloc), 0)
}

/// Adds how many connections two talks open, of which the first gets this answer.
fn add_opened(alloc: Global, session: &mut Session, row: &mut String, spelled: &str) {
    let mut wire = wire_of_two(alloc, spelled);
    session.play(alloc, &mut wire, PLAIN);
    session.play(alloc, &mut wire, PLAIN);
    add_shown(row, wire.opened());
}

/// Whether a talk sent its request, got these bytes, and was finished.
fn is_whole(talk: &TalkRecord, answer: &[u8]) -> bool {
    talk.sent.as_slice() == SENT.as_slice()
        && talk.got.as_slice() == answer
        && talk.ending == TalkEnding::Finished
}

fn is_one_whole_talk(talks: &[TalkRecord], answer: &[u8]) -> bool {
    match talks {
        [talk] => is_whole(talk, answer),
        _ => false,
    }
}

/// Adds what the head of an answer says, and whether the whole of it is taken in one talk.
fn add_head(alloc: Global, session: &mut Session, row: &mut String, spelled: &str) {
    let answer = written(alloc, spelled);
    let mut wire = wire(alloc, answer.as_bytes(), 7);
    session.play(alloc, &mut wire, LIMITED);
    add_head_of(row, session.last());
    add(row, " whole ");
    add_shown(row, is_one_whole_talk(wire.talks(), answer.as_bytes()));
    add(row, " alive ");
    add_shown(row, wire.is_alive());
}

fn last_got(wire: &ScriptWire) -> usize {
    match wire.talks() {
        [talk] => talk.got.len(),
        _ => 0,
    }
}

/// Adds how many bytes are taken of what a service says, and whether the connection is kept.
fn add_taken(alloc: Global, session: &mut Session, row: &mut String, spelled: &str) {
    let answer = large_answer(alloc, spelled);
    let mut wire = wire(alloc, &answer, 1_000_000);
    session.play(alloc, &mut wire, OF_A_LARGE_BODY);
    add_shown(row, last_got(&wire));
    add_life(row, &wire);
}

/// Adds what the fronts of an answer come to.
fn add_fronts(alloc: Global, session: &mut Session, row: &mut String, spelled: &str) {
    let answer = written(alloc, spelled);
    add_cuts(alloc, session, row, answer.as_bytes());
}

fn add_connection(alloc: Global, session: &mut Session, row: &mut String, call: &str, given: &str) {
    match call {
        "kept" => add_kept(alloc, session, row, given),
        "opened" => add_opened(alloc, session, row, given),
        "taken" => add_taken(alloc, session, row, given),
        _ => add_failing(alloc, session, row, given),
    }
}

/// Adds what a line comes to.
pub(crate) fn add_answer(alloc: Global, session: &mut Session, row: &mut String, line: &str) {
    let (call, given) = word_and_rest(line);
    match call {
        "answer" => add_spelled(alloc, session, row, PLAIN, given),
        "limited" => add_spelled(alloc, session, row, LIMITED, given),
        "bodyless" => add_spelled(alloc, session, row, HEAD_ONLY, given),
        "large" => add_large(alloc, session, row, given),
        "head" => add_head(alloc, session, row, given),
        "cuts" => add_fronts(alloc, session, row, given),
        _ => add_connection(alloc, session, row, call, given),
    }
}
