//! Answers in pieces of many sizes, and answers that are cut.

use crate::exchanges::shown::add_exchange;
use crate::rows::{add, add_shown};
use crate::sessions::{Request, Session, wire};
use std::alloc::Global;

const CUT: Request = Request {
    is_head: false,
    limit: Some(16),
};

/// What an answer comes to that a wire plays by at most so many bytes a call, in one talk.
fn played(
    alloc: Global,
    session: &mut Session,
    request: Request,
    answer: &[u8],
    most: usize,
) -> String {
    let mut shown = String::new(alloc);
    let mut wire = wire(alloc, answer, most);
    add_exchange(alloc, session, &mut shown, &mut wire, request);
    if wire.talks().len() != 1 {
        add(&mut shown, ", not one talk");
    }
    shown
}

/// Adds what comes of so many bytes, where it is not what came of fewer.
fn add_change(row: &mut String, count: usize, before: &str, now: &str) {
    if before != now {
        add(row, "; ");
        add_shown(row, count);
        add(row, ": ");
        add(row, now);
    }
}

/// Adds what an answer comes to by the least of these numbers of bytes, and where by another it comes to something else.
pub(crate) fn add_pieces(
    alloc: Global,
    session: &mut Session,
    row: &mut String,
    request: Request,
    answer: &[u8],
    sizes: (usize, usize),
) {
    let (least, most) = sizes;
    let shown = played(alloc, session, request, answer, least);
    add(row, shown.as_str());
    for size in least..most {
        let other = played(alloc, session, request, answer, size + 1);
        add_change(row, size + 1, shown.as_str(), other.as_str());
    }
}

fn front_shown(alloc: Global, session: &mut Session, front: &[u8]) -> String {
    let mut shown = String::new(alloc);
    add_pieces(alloc, session, &mut shown, CUT, front, (1, 100));
    shown
}

/// Adds what the fronts of an answer come to.
pub(crate) fn add_cuts(alloc: Global, session: &mut Session, row: &mut String, answer: &[u8]) {
    let mut before = front_shown(alloc, session, &[]);
    add(row, before.as_str());
    for end in 0..answer.len() {
        let front = answer.get(..end + 1).unwrap_or(&[]);
        let now = front_shown(alloc, session, front);
        add_change(row, front.len(), before.as_str(), now.as_str());
        before = now;
    }
}
