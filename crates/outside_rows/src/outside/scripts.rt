//! Wires that play a script.

use crate::lines::{count, word_and_rest};
use crate::outside::calls::{Called, add_calls};
use crate::outside::wires::{MOMENT, add_answer};
use crate::rows::{add, add_came, add_shown};
use crate::sessions::{failing_calls, pair};
use outside_memory::{ScriptWire, TalkRecord};
use std::alloc::Global;

/// Adds what came in a talk.
fn add_got(row: &mut String, talk: Option<&TalkRecord>) {
    match talk {
        Some(talk) => add_came(row, talk.got.as_slice()),
        None => add(row, "None"),
    }
}

/// Adds how a talk ended.
fn add_ending(row: &mut String, talk: Option<&TalkRecord>) {
    match talk {
        Some(talk) => add_shown(row, Some(talk.ending)),
        None => add(row, "None"),
    }
}

impl Called for ScriptWire {
    fn add_answer(&mut self, alloc: Global, row: &mut String, call: &str) {
        let (name, text) = word_and_rest(call);
        match name {
            "alive" => add_shown(row, self.is_alive()),
            "notes" => add_shown(row, self.notes().len()),
            "got" => add_got(row, self.talks().get(count(text))),
            "ending" => add_ending(row, self.talks().get(count(text))),
            _ => add_answer(self, row, ("localhost", 9000), call),
        }
    }
}

/// A wire that answers `abc` and then `xyz`, and of which the second call of that name fails.
fn wire_of(alloc: Global, failing: &str) -> ScriptWire {
    let answers = pair(alloc, b"abc", b"xyz");
    ScriptWire::make(alloc, answers, failing_calls(alloc, failing, 1), MOMENT)
}

/// Adds the answers of a wire in whose script a call fails, or which moves at most two bytes at a time.
pub(crate) fn add_answers(alloc: Global, row: &mut String, how: &str, calls: &str) {
    let mut wire = wire_of(alloc, how);
    if how == "short" {
        wire.move_at_most(2);
    }
    add_calls(&mut wire, alloc, row, calls);
}
