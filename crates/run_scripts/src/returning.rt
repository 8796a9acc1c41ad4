//! How a job comes back.

ghost use Rattle.std.specs.Prelude.{◌≡◌, ◌≤◌, true, IfOk, IfSome, is_some, length};
ghost use Rattle.row_words.specs.Endings.{IsEndedBy, can_end};
ghost use Rattle.run_scripts.specs.Returning.{ComesOf, FitsIn, HasLength, IsSameJob, length_of, room_of};

use jobs::{Carried, Ending, Job, What};
use row_words::{Ended, can_end, ended_as};
use s3_model::{JobId, Op, OutOfMemory, Part, Reply};
use std::alloc::{AllocError, Global};
use std::mem;

/// What a Get asks for, in the words in which a row says that it came.
fn got_words(
    alloc: Global,
    number: u32,
    range: (u64, u64),
    size: u64,
) -> Result<String, AllocError> {
    let (place, length) = range;
    if number == 0 {
        return format!(in alloc; "got/200/{length}");
    }
    let last = place.saturating_add(length).saturating_sub(1);
    format!(in alloc; "got/206/{place}-{last}/{size}")
}

/// What a job asks for. Of what is no Get its words are `ok`.
fn asked_words(alloc: Global, job: &Job) -> Result<String, AllocError> {
    match &job.what {
        What::Step { task, range, .. } if matches!(job.id.op, Op::Get) => {
            got_words(alloc, job.id.number, *range, task.size)
        }
        _ => String::from_str(alloc, "ok"),
    }
}

/// The words with which a job comes back, with what it asks for in place of `ok`.
fn spelled(alloc: Global, job: &Job, came: &str) -> Result<String, AllocError> {
    let Some(front) = came.strip_suffix("ok") else {
        return String::from_str(alloc, came);
    };
    let asked = asked_words(alloc, job)?;
    format!(in alloc; "{front}{asked}")
}

fn id_of(job: &Job) -> JobId
    ensures { result ≡ job.now.id }
{
    job.id
}

fn has_cell(job: &Job) -> bool
    ensures { result ≡ is_some job.now.cell }
{
    job.cell.is_some()
}

/// How many bytes a Get brought.
fn length_of(ending: &Ending) -> Option<u64>
    ensures { result ≡ length_of ending.now }
{
    match ending {
        Ending::Gained(Reply::Got { length, .. }) => Some(*length),
        _ => None,
    }
}

/// Whether so many bytes fit into the part of a job, if it has one.
fn has_room(job: &Job, count: u64) -> bool
    ensures { result ≡ true → IfSome job.now.part (λ part. count ≤ part.bytes.room) }
{
    match &job.part {
        Some(part) => count <= part.bytes.room(),
        None => true,
    }
}

/// Whether the bytes that came with an ending fit into the part of a job.
fn fits(job: &Job, ending: &Ending) -> bool
    ensures { result ≡ true → FitsIn (length_of ending.now) job.now.part }
{
    match length_of(ending) {
        Some(count) => has_room(job, count),
        None => true,
    }
}

/// So many bytes stand in a part.
fn sized(mut part: Part, count: u64) -> Part
    requires { count ≤ part.bytes.room }
    ensures count { length result.bytes.bytes ≡ count }
    ensures room { result.bytes.room ≡ part.bytes.room }
{
    part.bytes.clear();
    part.bytes.grow(count as usize);
    part
}

fn part_sized(part: Option<Part>, count: u64) -> Option<Part>
    requires { IfSome part (λ own. count ≤ own.bytes.room) }
    ensures count { IfSome result (λ now. length now.bytes.bytes ≡ count) }
    ensures room { room_of result ≡ room_of part }
{
    match part {
        Some(part) => Some(sized(part, count)),
        None => None,
    }
}

/// The job with so many bytes in its part.
fn filled(job: Job, count: u64) -> Job
    requires { IfSome job.part (λ own. count ≤ own.bytes.room) }
    ensures same { IsSameJob job result }
    ensures count { IfSome result.part (λ now. length now.bytes.bytes ≡ count) }
{
    let Job {
        id,
        what,
        part,
        cell,
        had,
        ..
    } = job;
    Job {
        id,
        what,
        part: part_sized(part, count),
        hash: None,
        cell,
        had,
    }
}

/// The job with the bytes that it brought, if it brought any.
fn with_bytes(job: Job, ending: &Ending) -> Job
    requires { FitsIn (length_of ending.now) job.part }
    ensures same { IsSameJob job result }
    ensures length { HasLength (length_of ending.now) result.part }
{
    match length_of(ending) {
        Some(count) => filled(job, count),
        None => job,
    }
}

/// The job as it ended.
fn carried(job: Job, ended: Ended) -> Carried
    requires ended { IsEndedBy ended.ending job.id.op ended.tries }
    requires few { length ended.tries ≤ 10 }
    requires fits { FitsIn (length_of ended.ending) job.part }
    requires can { can_end ended.ending (is_some job.cell) ≡ true }
    ensures { ComesOf job result }
{
    let job = with_bytes(job, &ended.ending);
    let Ended { tries, ending } = ended;
    Carried { job, tries, ending }
}

/// Whether a job can have that ending, and has room for what it brought.
fn can_end_so(job: &Job, ending: &Ending) -> bool
    ensures fits { result ≡ true → FitsIn (length_of ending.now) job.now.part }
    ensures can { result ≡ true → can_end ending.now (is_some job.now.cell) ≡ true }
{
    can_end(ending, has_cell(job)) && fits(job, ending)
}

/// The job with that ending, if it can have it and has room for what it brought.
fn carried_as(job: Job, ended: Ended) -> Option<Carried>
    requires ended { IsEndedBy ended.ending job.id.op ended.tries }
    requires few { length ended.tries ≤ 10 }
    ensures { IfSome result (ComesOf job) }
{
    if can_end_so(&job, &ended.ending) {
        Some(carried(job, ended))
    } else {
        mem::drop(ended);
        mem::drop(job);
        None
    }
}

/// The job with its ending, if it has one.
fn carried_by(job: Job, ended: Option<Ended>) -> Option<Carried>
    requires ended { IfSome ended (λ e. IsEndedBy e.ending job.id.op e.tries) }
    requires few { IfSome ended (λ e. length e.tries ≤ 10) }
    ensures { IfSome result (ComesOf job) }
{
    match ended {
        Some(ended) => carried_as(job, ended),
        None => {
            mem::drop(job);
            None
        }
    }
}

/// How a job ends by these words.
fn ended_by(alloc: Global, job: &Job, came: &str) -> Result<Option<Ended>, OutOfMemory>
    ensures ends { IfOk result (λ ended. IfSome ended (λ e. IsEndedBy e.ending job.now.id.op e.tries)) }
    ensures few { IfOk result (λ ended. IfSome ended (λ e. length e.tries ≤ 10)) }
{
    let words = spelled(alloc, job, came)?;
    let id = id_of(job);
    ended_as(alloc, id.op, id.number, words.as_str())
}

/// The job as it comes back. None where it cannot come so.
pub fn come_back(alloc: Global, job: Job, came: &str) -> Result<Option<Carried>, OutOfMemory>
    ensures { IfOk result (λ back. IfSome back (ComesOf job)) }
{
    match ended_by(alloc, &job, came) {
        Ok(ended) => Ok(carried_by(job, ended)),
        Err(OutOfMemory) => {
            mem::drop(job);
            Err(OutOfMemory)
        }
    }
}
