//! The causes that endings of jobs and results of calls on files show.

ghost use Rattle.std.specs.Prelude.{◌≡◌};
ghost use Rattle.task_acts.specs.Failures.{
  call_of,
  ended_cause,
  file_cause,
  lost_cause,
  reads_source,
  refused_cause,
  result_cause,
  says_changed,
};
ghost use Rattle.task_causes.specs.Pieces.{HasNumber};

use crate::endings::is_code;
use crate::replies::is_asked_for;
use jobs::Ending;
use s3_model::{Cause, FileCall, Op, Reply, Text, Why};
use s3_outside::FileFault;
use std::mem;
use task_acts::{Act, FileCame, Work};

fn reads_source(op: Op) -> bool
    ensures { result ≡ reads_source op }
{
    matches!(op, Op::Get | Op::Copy | Op::PartCopy)
}

/// Whether a refusal says that the source is another one by now.
fn says_changed(op: Op, status: u16, code: &str) -> bool
    ensures { result ≡ says_changed op status code.now }
{
    reads_source(op) && (status == 412 || is_code(code, "PreconditionFailed"))
}

fn refused_cause(op: Op, status: u16, code: Text, message: Text) -> Cause
    ensures { result ≡ refused_cause op status code message }
{
    if says_changed(op, status, code.as_str()) {
        Cause::Changed
    } else {
        Cause::Service { op, code, message }
    }
}

fn lost_cause(op: Op, why: Why) -> Cause
    ensures { result ≡ lost_cause op why }
{
    match why {
        Why::Memory => Cause::Memory,
        _ => Cause::Lost { op, why },
    }
}

/// The cause that a reply shows where it is not what was asked for.
fn gained_cause(work: &Work, op: Op, number: u32, reply: Reply) -> Option<Cause>
    requires { HasNumber work.now number }
    ensures { result ≡ ended_cause work.now op number (Ending.Gained reply) }
{
    let is_fine = is_asked_for(work, number, &reply);
    mem::drop(reply);
    if is_fine {
        None
    } else {
        Some(Cause::BadReply { op })
    }
}

/// The cause that the ending of a job shows, None where it gained what was asked for.
pub fn ended_cause(work: &Work, op: Op, number: u32, ending: Ending) -> Option<Cause>
    requires { HasNumber work.now number }
    ensures { result ≡ ended_cause work.now op number ending }
{
    match ending {
        Ending::Gained(reply) => gained_cause(work, op, number, reply),
        Ending::Refused {
            status,
            code,
            message,
        } => Some(refused_cause(op, status, code, message)),
        Ending::Uncertain(why) => Some(lost_cause(op, why)),
        Ending::Cancelled(reason) => Some(Cause::Cancelled { reason }),
        Ending::Memory => Some(Cause::Memory),
    }
}

fn call_of(act: Act) -> FileCall
    ensures { result ≡ call_of act }
{
    match act {
        Act::Assemble => FileCall::Create,
        Act::Place { .. } => FileCall::Write,
        Act::Rename => FileCall::Rename,
        Act::Remove => FileCall::Remove,
        _ => FileCall::Read,
    }
}

fn result_cause(act: Act, came: FileCame) -> Option<Cause>
    ensures { result ≡ result_cause act came }
{
    match came {
        FileCame::Fine => None,
        FileCame::Short => Some(Cause::Changed),
        FileCame::Fault(FileFault::Failed) => Some(Cause::Files { call: call_of(act) }),
        FileCame::Fault(FileFault::Blocked { length }) => Some(Cause::Blocked { length }),
        FileCame::Fault(FileFault::Memory) => Some(Cause::Memory),
    }
}

/// The cause that a call on files shows, None where it did what it was to do, or only a warning comes of it.
pub fn file_cause(act: Act, came: FileCame) -> Option<Cause>
    ensures { result ≡ file_cause act came }
{
    match act {
        Act::Stamp | Act::DropTemp => None,
        _ => result_cause(act, came),
    }
}
