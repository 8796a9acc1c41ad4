//! The work of one upload.

ghost use Rattle.std.specs.Prelude.{◌≡◌, ◌≤◌, [], Some, None};
ghost use Rattle.std.specs.Arc.{arc_value};
ghost use Rattle.job_terms.specs.Gains.{Gains};
ghost use Rattle.upload_promise.specs.Puts.{put_job};
ghost use Rattle.upload_promise.specs.Sources.{LooksAt};
ghost use Rattle.upload_promise.specs.Uploads.{WantsJournal, is_open, is_uncertain};
ghost use Rattle.small_uploads.specs.Uploading.{
  IsPutTask,
  IsSentBy,
  IsStepOf,
  Uploads,
  WantsEvents,
  WantsPut,
  failed_or_unknown,
  lost_cause,
  outcome_of,
  put_ask,
  read_cause,
};

use crate::source::{ReadFault, read_whole};
use lane_jobs::{Carried, Carrier, Ending, Job, What};
use s3_model::{
    Bytes, Cause, Event, FileCall, JobId, Journal, Mark, Op, Outcome, Part, Task, Tries, Why,
};
use s3_outside::{Files, Wire};
use std::alloc::Global;
use std::mem;
use std::sync::Arc;

/// The only job of an upload of one piece.
const PUT: JobId = JobId {
    task: Some(0),
    op: Op::Put,
    number: 0,
};

fn read_cause(fault: ReadFault) -> Cause
    ensures { result ≡ read_cause fault }
{
    match fault {
        ReadFault::Failed => Cause::Files {
            call: FileCall::Read,
        },
        ReadFault::Short => Cause::Changed,
        ReadFault::Memory => Cause::Memory,
    }
}

fn lost_cause(why: Why) -> Cause
    ensures { result ≡ lost_cause why }
{
    match why {
        Why::Memory => Cause::Memory,
        _ => Cause::Lost { op: Op::Put, why },
    }
}

fn is_uncertain(mark: &Mark) -> bool
    ensures { result ≡ is_uncertain mark.now }
{
    matches!(mark, Mark::Uncertain)
}

/// Whether an attempt left open what it did.
fn is_open(marks: &[Mark]) -> bool
    ensures { result ≡ is_open marks.now }
{
    marks.iter().any(is_uncertain)
}

/// The outcome of a request that did not come through: where an attempt was left open, nobody can know what it did.
fn failed_or_unknown(tries: &Tries, cause: Cause) -> Outcome
    ensures { result ≡ failed_or_unknown tries.now cause }
{
    if is_open(tries.as_slice()) {
        Outcome::Unknown(cause)
    } else {
        Outcome::Failed(cause)
    }
}

fn outcome_of(tries: &Tries, ending: Ending) -> Outcome
    ensures { result ≡ outcome_of tries.now ending }
{
    match ending {
        Ending::Gained(_) => Outcome::Done,
        Ending::Refused { code, message, .. } => {
            let op = Op::Put;
            failed_or_unknown(tries, Cause::Service { op, code, message })
        }
        Ending::Uncertain(why) => Outcome::Unknown(lost_cause(why)),
        Ending::Cancelled(reason) => failed_or_unknown(tries, Cause::Cancelled { reason }),
        Ending::Memory => failed_or_unknown(tries, Cause::Memory),
    }
}

/// The Put of a task's bytes, which nothing cancels.
fn job_of(task: Arc<Task, Global>, size: u64, bytes: Bytes) -> Job
    requires { IsPutTask (arc_value task) }
    ensures id { result.id ≡ put_job }
    ensures step { IsStepOf (arc_value task) result.what }
    ensures part { result.part ≡ Some (record { bytes = bytes }) }
    ensures cell { result.cell ≡ None }
    ensures had { result.had ≡ 0 }
{
    Job {
        id: PUT,
        what: What::Step {
            task,
            range: (0, size),
            upload: None,
            etags: None,
        },
        part: Some(Part { bytes }),
        hash: None,
        cell: None,
        had: 0,
    }
}

/// What came of a Put: the marks of its attempts, and the outcome that they and its ending come to.
#[derive(Drop)]
struct Ended {
    tries: Tries,
    outcome: Outcome,
}

/// What came of a Put that was carried, whose job is let go.
fn end_of(carried: Carried) -> Ended
    ensures tries { result.tries ≡ carried.tries }
    ensures outcome { result.outcome ≡ outcome_of carried.tries carried.ending }
    ensures wants { carried.job.cell ≡ None → WantsPut result.outcome result.tries }
{
    let Carried { job, tries, ending } = carried;
    mem::drop(job);
    let outcome = outcome_of(&tries, ending);
    Ended { tries, outcome }
}

/// Has a Put carried, with as many attempts as the carrier makes; the journal has its events.
fn carry_put<W: Wire>(
    wire: &mut W,
    carrier: &mut Carrier,
    put: Job,
    journal: &mut Journal,
) -> Outcome
    requires empty { journal.old.items ≡ [] }
    requires room { 2 ≤ journal.old.spare }
    ensures sent { IsSentBy carrier.old put (W.seen wire.old) (W.seen wire.new) journal.new.items result }
    ensures wants { put.cell ≡ None → WantsEvents result journal.new.items }
    ensures later { W.faults wire.old ≤ W.faults wire.new }
{
    journal.push(Event::Given { job: PUT, lane: 0 });
    let Ended { tries, outcome } = end_of(carrier.carry(wire, put));
    journal.push(Event::Came {
        job: PUT,
        lane: 0,
        tries,
    });
    outcome
}

/// Reads the file whole and has its Put carried, with as many attempts as the carrier makes; the journal has the job
/// once it was given.
pub fn upload<F: Files, W: Wire>(
    alloc: Global,
    files: &mut F,
    wire: &mut W,
    carrier: &mut Carrier,
    task: Arc<Task, Global>,
    path: &str,
    size: u64,
    journal: &mut Journal,
) -> Outcome
    requires put { IsPutTask (arc_value task) }
    requires empty { journal.old.items ≡ [] }
    requires room { 2 ≤ journal.old.spare }
    ensures went { Gains (W.seen wire.old) (W.seen wire.new) (Uploads carrier.old.endpoint carrier.old.keys
        carrier.old.attempts (put_ask (arc_value task)) (F.seen files.new) path.now size (F.faults files.old)
        (F.faults files.new) journal.new.items result) }
    ensures wants { WantsJournal (F.faults files.old) (F.faults files.new) result journal.new.items }
    ensures files { LooksAt path.now (F.seen files.old) (F.seen files.new) }
    ensures files_later { F.faults files.old ≤ F.faults files.new }
    ensures wire_later { W.faults wire.old ≤ W.faults wire.new }
{
    match read_whole(alloc, files, path, size) {
        Ok(bytes) => carry_put(wire, carrier, job_of(task, size, bytes), journal),
        Err(fault) => Outcome::Failed(read_cause(fault)),
    }
}
