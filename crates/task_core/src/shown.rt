//! What a job that came back shows of the deciding request.

ghost use Rattle.std.specs.Prelude.{◌≡◌, ◌&&◌, length, nat_lt};
ghost use Rattle.std.specs.List.{list_any};
ghost use Rattle.job_terms.specs.Ops.{is_op};
ghost use Rattle.task_acts.specs.Ends.{decides, has_tries, is_by_request, is_uncertain};
ghost use Rattle.task_acts.specs.Work.{deciding_op};
ghost use Rattle.task_core.specs.Shown.{is_deciding};

use jobs::Carried;
use s3_model::{JobId, Kind, Mark, Op};
use task_acts::Work;

/// Whether an op is that of the request that decides a task.
fn is_deciding_op(work: &Work, op: Op) -> bool
    ensures { result ≡ (is_by_request work.now.of_kind && is_op op (deciding_op work.now)) }
{
    match (work.of_kind, work.small) {
        (Kind::Upload, true) => matches!(op, Op::Put),
        (Kind::Copy, true) => matches!(op, Op::Copy),
        (Kind::Upload | Kind::Copy, false) => matches!(op, Op::Complete),
        (Kind::RemoveObject, _) => matches!(op, Op::Delete),
        (Kind::Download | Kind::RemoveFile, _) => false,
    }
}

/// Whether a job is the deciding request.
fn is_deciding(work: &Work, id: JobId) -> bool
    ensures { result ≡ is_deciding work.now id }
{
    is_deciding_op(work, id.op) && id.number == 0
}

/// Whether some attempt left open what it did.
fn has_uncertain(tries: &[Mark]) -> bool
    ensures { result ≡ list_any is_uncertain tries.now }
{
    tries.iter().any(|mark| matches!(mark, Mark::Uncertain))
}

fn is_some_made(tries: &[Mark]) -> bool
    ensures { result ≡ nat_lt 0 (length tries.now) }
{
    !tries.is_empty()
}

/// Whether a job shows what the deciding request did last.
pub(crate) fn is_last(work: &Work, carried: &Carried) -> bool
    ensures { result ≡ (decides work.now carried.now && has_tries carried.now) }
{
    is_deciding(work, carried.job.id) && is_some_made(carried.tries.as_slice())
}

/// Whether a job shows that an attempt of the deciding request left open what it did.
pub(crate) fn is_open(work: &Work, carried: &Carried) -> bool
    ensures { result ≡ (decides work.now carried.now && list_any is_uncertain carried.now.tries) }
{
    is_deciding(work, carried.job.id) && has_uncertain(carried.tries.as_slice())
}
