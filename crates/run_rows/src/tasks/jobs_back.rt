//! Jobs that come back.

ghost use Rattle.std.specs.Prelude.{◌≡◌, ◌≤◌, true, IfOk, IfSome, is_some, length};
ghost use Rattle.std.specs.Arc.{arc_value};
ghost use Rattle.jobs.specs.Jobs.{HasPart};
ghost use Rattle.job_terms.specs.Buffers.{holds_buffer};
ghost use Rattle.task_acts.specs.declared.acts.Act.TheVariants as act;
ghost use Rattle.task_acts.specs.Histories.{sent};
ghost use Rattle.row_words.specs.Endings.{IsEndedBy, can_end};
ghost use Rattle.run_rows.specs.Rows.{IsAnObject, IsTaskFor, body_of, is_step, kind_for};

use crate::lines::text_of;
use jobs::{CancelCell, Carried, Ending, Job, What};
use row_words::{Ended, can_end};
use s3_model::{Bytes, JobId, Kind, Op, OutOfMemory, Part, Place, Reply, Task, Texts, UploadId};
use std::alloc::Global;
use std::mem;
use std::sync::Arc;

/// A kind of task that has jobs of that op.
fn kind_for(op: Op) -> Kind
    ensures { result ≡ kind_for op }
{
    match op {
        Op::Get => Kind::Download,
        Op::Copy | Op::PartCopy => Kind::Copy,
        Op::Delete => Kind::RemoveObject,
        _ => Kind::Upload,
    }
}

fn object(alloc: Global, key: &str) -> Place
    ensures { IsAnObject result }
{
    Place::Object {
        bucket: text_of(alloc, "b"),
        key: text_of(alloc, key),
    }
}

fn task_of(alloc: Global, op: Op) -> Task
    ensures { IsTaskFor op result }
{
    Task {
        kind: kind_for(op),
        moves: false,
        source: Some(object(alloc, "k")),
        dest: object(alloc, "l"),
        size: 4,
        etag: text_of(alloc, "e"),
        micros: 0,
        content: None,
        fresh: false,
    }
}

/// A task that has jobs of that op. What happens to a task depends on the ids of its jobs and on their endings alone.
fn task_for(alloc: Global, op: Op) -> Result<Arc<Task, Global>, OutOfMemory>
    ensures { IfOk result (λ task. IsTaskFor op (arc_value task)) }
{
    match Arc::new(alloc, task_of(alloc, op)) {
        Ok(task) => Ok(task),
        Err(failed) => {
            mem::drop(failed);
            Err(OutOfMemory)
        }
    }
}

/// How many bytes the part of a job has.
fn body_of(ending: &Ending) -> u64
    ensures { result ≡ body_of ending.now }
{
    match ending {
        Ending::Gained(Reply::Got { length, .. }) => *length,
        _ => 4,
    }
}

fn part_of(alloc: Global, count: u64) -> Result<Part, OutOfMemory>
    ensures count { IfOk result (λ part. length part.bytes.bytes ≡ count) }
    ensures room { IfOk result (λ part. 1 ≤ part.bytes.room) }
{
    let mut bytes = Bytes::make(alloc, count.max(1))?;
    bytes.grow(count as usize);
    Ok(Part { bytes })
}

/// Whether a job of that op has a part.
fn has_part(op: Op) -> bool
    ensures { result ≡ holds_buffer op }
{
    matches!(op, Op::Put | Op::Part | Op::Get)
}

fn part_for(alloc: Global, op: Op, count: u64) -> Result<Option<Part>, OutOfMemory>
    ensures part { IfOk result (HasPart op 1) }
    ensures count { IfOk result (λ part. IfSome part (λ p. length p.bytes.bytes ≡ count)) }
{
    if !has_part(op) {
        return Ok(None);
    }
    let part = part_of(alloc, count)?;
    Ok(Some(part))
}

fn cell_for(alloc: Global, has_cell: bool) -> Result<Option<CancelCell>, OutOfMemory>
    ensures { IfOk result (λ cell. is_some cell ≡ has_cell) }
{
    if has_cell {
        Ok(Some(CancelCell::make(alloc)?))
    } else {
        Ok(None)
    }
}

fn is_step(op: Op) -> bool
    ensures { result ≡ is_step op }
{
    !matches!(op, Op::Head | Op::List | Op::Buckets)
}

/// An upload's id.
fn upload_id() -> UploadId {
    let Some(id) = UploadId::of("u") else {
        unreachable!()
    };
    id
}

/// The job of a task, with this part and this cell.
fn job_of(
    alloc: Global,
    id: JobId,
    task: Arc<Task, Global>,
    part: Option<Part>,
    cell: Option<CancelCell>,
) -> Job
    requires task { IsTaskFor id.op (arc_value task) }
    requires step { is_step id.op ≡ true }
    requires part { HasPart id.op 1 part }
    ensures { (result.id ≡ id) × (result.part ≡ part) × (result.cell ≡ cell) × (result.had ≡ 0) }
{
    let upload = upload_id();
    let etags = Texts::make(alloc);
    let what = What::Step {
        task,
        range: (0, 1),
        upload: Some(upload),
        etags: Some(etags),
    };
    Job {
        id,
        what,
        part,
        hash: None,
        cell,
        had: 0,
    }
}

/// The job of that id, with or without a cell, whose part has so many bytes.
fn job_for(alloc: Global, id: JobId, has_cell: bool, count: u64) -> Result<Job, OutOfMemory>
    requires { is_step id.op ≡ true }
    ensures job { IfOk result (λ job. (job.id ≡ id) × (job.had ≡ 0)) }
    ensures part { IfOk result (λ job. IfSome job.part (λ part. length part.bytes.bytes ≡ count)) }
    ensures cell { IfOk result (λ job. is_some job.cell ≡ has_cell) }
{
    let part = part_for(alloc, id.op, count)?;
    let cell = cell_for(alloc, has_cell)?;
    let task = task_for(alloc, id.op)?;
    Ok(job_of(alloc, id, task, part, cell))
}

/// A job that comes back with that ending.
fn carried_as(job: Job, ended: Ended) -> Carried
    requires ended { IsEndedBy ended.ending job.id.op ended.tries }
    requires body { IfSome job.part (λ part. length part.bytes.bytes ≡ body_of ended.ending) }
    requires can { can_end ended.ending (is_some job.cell) ≡ true }
    ensures { result.job ≡ job }
{
    let Ended { tries, ending } = ended;
    Carried { job, tries, ending }
}

/// The job of that op and number, with or without a cell, comes back with that ending, or None where it cannot.
pub(crate) fn job_back(
    alloc: Global,
    op: Op,
    number: u32,
    has_cell: bool,
    ended: Ended,
) -> Result<Option<Carried>, OutOfMemory>
    requires ended { IsEndedBy ended.ending op ended.tries }
    ensures id { IfOk result (λ c. IfSome c (λ carried. sent carried ≡ act.Send op number)) }
    ensures had { IfOk result (λ c. IfSome c (λ carried. carried.job.had ≡ 0)) }
{
    if !is_step(op) || !can_end(&ended.ending, has_cell) {
        mem::drop(ended);
        return Ok(None);
    }
    let id = JobId {
        task: Some(0),
        op,
        number,
    };
    match job_for(alloc, id, has_cell, body_of(&ended.ending)) {
        Ok(job) => Ok(Some(carried_as(job, ended))),
        Err(OutOfMemory) => {
            mem::drop(ended);
            Err(OutOfMemory)
        }
    }
}
