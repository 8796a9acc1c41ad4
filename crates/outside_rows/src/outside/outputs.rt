//! Outputs.

use crate::lines::{numbers, word_and_rest};
use crate::outside::calls::add_call;
use crate::rows::{add_came, add_shown};
use outside_memory::MemSink;
use outside_system::StdSink;
use s3_outside::Sink;
use std::alloc::Global;

/// Puts each piece, and adds what the output answers.
fn add_puts<S: Sink>(sink: &mut S, row: &mut String, pieces: &str) {
    for piece in pieces.split("; ") {
        add_call(row, piece);
        add_shown(row, sink.put(piece.as_bytes()));
    }
}

/// An output in memory: how many bytes it takes, and the numbers of the calls that fail.
fn sink_of(alloc: Global, how: &str) -> MemSink {
    let (limit, failing) = word_and_rest(how);
    match limit.parse::<usize>() {
        Ok(limit) => MemSink::make_failing(alloc, numbers(alloc, failing), limit),
        Err(_) => MemSink::make(alloc),
    }
}

fn add_in_memory(alloc: Global, row: &mut String, how: &str, pieces: &str) {
    let mut sink = sink_of(alloc, how);
    add_puts(&mut sink, row, pieces);
    add_call(row, "got");
    add_came(row, sink.got());
}

pub(crate) fn add_answers(rt: &HostRuntime, row: &mut String, how: &str, pieces: &str) {
    match how {
        "of the system" => add_puts(&mut StdSink::new(rt.stderr()), row, pieces),
        _ => add_in_memory(rt.alloc(), row, how, pieces),
    }
}
