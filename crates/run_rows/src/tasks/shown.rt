//! Acts as text.

use crate::outcomes::{outcome_shown, with_value};
use s3_model::{Op, Outcome};
use std::alloc::{AllocError, Global};
use task_acts::Act;

fn job_shown(alloc: Global, op: Op, number: u32) -> Result<String, AllocError> {
    format!(in alloc; "{op:?} {number}")
}

/// The name of an act that has no number.
fn name_shown(alloc: Global, act: Act) -> Result<String, AllocError> {
    format!(in alloc; "{act:?}")
}

fn act_shown(alloc: Global, act: Act) -> Result<String, AllocError> {
    match act {
        Act::Send { op, number } => job_shown(alloc, op, number),
        Act::Read { number } => with_value(alloc, "Read", &number),
        Act::Place { number } => with_value(alloc, "Place", &number),
        _ => name_shown(alloc, act),
    }
}

/// The act that is ready, or that a return is waited for.
fn going_on_shown(alloc: Global, ready: Option<Act>) -> Result<String, AllocError> {
    match ready {
        Some(act) => act_shown(alloc, act),
        None => String::from_str(alloc, "wait"),
    }
}

/// The outcome, behind which no act is ready.
fn settled_shown(alloc: Global, outcome: &Outcome, is_ready: bool) -> Result<String, AllocError> {
    if is_ready {
        return String::from_str(alloc, "ready though it has ended");
    }
    outcome_shown(alloc, outcome)
}

/// The act that is ready, or the outcome, or that a return is waited for.
pub(crate) fn state_shown(
    alloc: Global,
    ready: Option<Act>,
    outcome: Option<&Outcome>,
) -> Result<String, AllocError> {
    match outcome {
        Some(outcome) => settled_shown(alloc, outcome, ready.is_some()),
        None => going_on_shown(alloc, ready),
    }
}
