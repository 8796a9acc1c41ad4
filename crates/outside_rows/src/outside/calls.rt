//! Calls in their order, each with its answer.

use crate::rows::add;
use std::alloc::Global;

/// Adds a call, in front of its answer.
pub(crate) fn add_call(row: &mut String, call: &str) {
    add(row, "; ");
    add(row, call);
    add(row, " => ");
}

/// What a line calls.
pub(crate) trait Called {
    fn add_answer(&mut self, alloc: Global, row: &mut String, call: &str);
}

/// Adds calls in their order, each with its answer.
pub(crate) fn add_calls<C: Called>(called: &mut C, alloc: Global, row: &mut String, calls: &str) {
    for call in calls.split("; ") {
        add_call(row, call);
        called.add_answer(alloc, row, call);
    }
}
