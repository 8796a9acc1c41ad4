//! Outcomes as text.

use s3_model::{Cause, Op, Outcome, Why};
use std::alloc::{AllocError, Global};
use std::fmt::Debug;

/// A word and a value behind it.
pub(crate) fn with_value<T: Debug>(
    alloc: Global,
    word: &str,
    value: &T,
) -> Result<String, AllocError> {
    format!(in alloc; "{word} {value:?}")
}

fn refusal_shown(alloc: Global, op: Op, code: &str) -> Result<String, AllocError> {
    format!(in alloc; "Service {op:?} {code}")
}

fn lost_shown(alloc: Global, op: Op, why: Why) -> Result<String, AllocError> {
    format!(in alloc; "Lost {op:?} {why:?}")
}

fn cause_shown(alloc: Global, cause: &Cause) -> Result<String, AllocError> {
    match cause {
        Cause::Service { op, code, .. } => refusal_shown(alloc, *op, code.as_str()),
        Cause::Lost { op, why } => lost_shown(alloc, *op, *why),
        Cause::Changed => String::from_str(alloc, "Changed"),
        Cause::BadReply { op } => with_value(alloc, "BadReply", op),
        Cause::Files { call } => with_value(alloc, "Files", call),
        Cause::Blocked { length } => with_value(alloc, "Blocked", length),
        Cause::Cancelled { reason } => with_value(alloc, "Cancelled", reason),
        Cause::Memory => String::from_str(alloc, "Memory"),
    }
}

fn ended_shown(alloc: Global, name: &str, cause: &Cause) -> Result<String, AllocError> {
    let cause = cause_shown(alloc, cause)?;
    let cause = cause.as_str();
    format!(in alloc; "{name} {cause}")
}

pub(crate) fn outcome_shown(alloc: Global, outcome: &Outcome) -> Result<String, AllocError> {
    match outcome {
        Outcome::Copied(cause) => ended_shown(alloc, "Copied", cause),
        Outcome::Failed(cause) => ended_shown(alloc, "Failed", cause),
        Outcome::Unknown(cause) => ended_shown(alloc, "Unknown", cause),
        Outcome::Done => String::from_str(alloc, "Done"),
        Outcome::Dry | Outcome::Skipped => String::from_str(alloc, "no outcome of a task"),
    }
}
