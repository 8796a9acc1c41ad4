//! Causes and their texts.

ghost use Rattle.result_lines.specs.Causes.{IsShown};

use crate::lines::{small_number, text_of, word_and_rest};
use crate::printed::values::{front_and_rest, op_of, why_of};
use result_lines::cause_text;
use s3_model::{Cause, FileCall, OutOfMemory, Reason, Text};
use std::alloc::Global;
use std::mem;

/// A service's refusal: the operation, the code and the message.
fn refusal(alloc: Global, given: &str) -> Cause
    ensures { IsShown result }
{
    let (op, rest) = word_and_rest(given);
    let (code, message) = word_and_rest(rest);
    Cause::Service {
        op: op_of(op),
        code: text_of(alloc, code),
        message: text_of(alloc, message),
    }
}

fn lost(given: &str) -> Cause
    ensures { IsShown result }
{
    let (op, why) = word_and_rest(given);
    Cause::Lost {
        op: op_of(op),
        why: why_of(why),
    }
}

fn call_of(name: &str) -> FileCall {
    match name {
        "Read" => FileCall::Read,
        "Create" => FileCall::Create,
        "Write" => FileCall::Write,
        "Rename" => FileCall::Rename,
        _ => FileCall::Remove,
    }
}

fn cancelled(reason: &str) -> Cause
    ensures { IsShown result }
{
    let reason = match reason {
        "ListingEnded" => Reason::ListingEnded,
        "OutputFailed" => Reason::OutputFailed,
        _ => Reason::OutOfMemory,
    };
    Cause::Cancelled { reason }
}

/// A cause without texts.
fn plain_cause(name: &str, given: &str) -> Cause
    ensures { IsShown result }
{
    match name {
        "Lost" => lost(given),
        "BadReply" => Cause::BadReply { op: op_of(given) },
        "Files" => Cause::Files {
            call: call_of(given),
        },
        "Blocked" => Cause::Blocked {
            length: small_number(given),
        },
        "Cancelled" => cancelled(given),
        "Changed" => Cause::Changed,
        _ => Cause::Memory,
    }
}

/// The cause that is written so.
pub(crate) fn cause_of(alloc: Global, written: &str) -> Cause
    ensures { IsShown result }
{
    let (name, given) = word_and_rest(written);
    match name {
        "Service" => refusal(alloc, given),
        _ => plain_cause(name, given),
    }
}

/// The text of a cause, behind which the destination stands.
pub(crate) fn answer(alloc: Global, given: &str) -> Result<Text, OutOfMemory> {
    let (cause, dest) = front_and_rest(given);
    let cause = cause_of(alloc, cause);
    let text = cause_text(alloc, &cause, dest);
    mem::drop(cause);
    text
}
