//! Answers, with what each means for its request.
//!
//! A line has a name, the operation of the request, and the bytes that came, parted by one space. `LargeGet` is a Get
//! that takes 40 MiB into a place of its own. In the bytes `\r` and `\n` stand for themselves as in Rust, `\x` with two
//! hexadecimal digits for any other byte, and `\z` with a number and a semicolon for so many zero bytes. The answer is
//! followed by the end of the connection. After its class stands `again` where the request would be tried again.

mod requests;
mod shown;

use crate::answers::requests::request_named;
use crate::answers::shown::add_class;
use crate::bytes::bytes_of;
use crate::lines::word_and_rest;
use crate::rows::add;
use crate::sessions::{PLACE, Request, Session, wire};
use answer_classes::{again, classify, is_head};
use s3_model::{Class, Talked};
use std::alloc::Global;
use std::mem;

/// How many bytes the request of an operation takes into a place of its own.
fn limit_of(operation: &str) -> Option<u64> {
    match operation {
        "LargeGet" => Some(PLACE),
        _ => None,
    }
}

/// What an exchange comes to whose answer is played.
fn talked(alloc: Global, session: &mut Session, request: Request, written: &str) -> Talked {
    let answer = bytes_of(alloc, written);
    let mut wire = wire(alloc, &answer, usize::MAX);
    session.talk(alloc, &mut wire, request)
}

/// The class of an answer to the request of an operation.
fn class_of(alloc: Global, session: &mut Session, operation: &str, written: &str) -> Class {
    let ask = request_named(alloc, operation);
    let request = Request {
        is_head: is_head(&ask),
        limit: limit_of(operation),
    };
    let class = classify(alloc, &ask, talked(alloc, session, request, written));
    mem::drop(ask);
    class
}

/// Adds a class, and whether the request would be tried again.
fn add_meaning(row: &mut String, class: &Class) {
    add_class(row, class);
    if again(class) {
        add(row, " (again)");
    }
}

/// Adds an answer with its meaning in place of its bytes.
pub(crate) fn add_row(alloc: Global, session: &mut Session, row: &mut String, line: &str) {
    let (name, rest) = word_and_rest(line);
    let (operation, written) = word_and_rest(rest);
    for word in [name, " ", operation, " => "] {
        add(row, word);
    }
    let class = class_of(alloc, session, operation, written);
    add_meaning(row, &class);
    mem::drop(class);
}
