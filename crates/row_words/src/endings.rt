//! What rows say of the attempts of a job.

ghost use Rattle.std.specs.Prelude.{◌≡◌, ◌≢◌, ◌<◌, ◌≤◌, IfOk, IfSome, length};
ghost use Rattle.jobs.specs.Endings.{EndIn, HaveNoSuccess, IsReplyTo};
ghost use Rattle.s3_model.specs.declared.requests.Op.{Op};
ghost use Rattle.s3_model.specs.declared.requests.Op.TheVariants as op;
ghost use Rattle.s3_model.specs.declared.tries.Mark.TheVariants as mark;
ghost use Rattle.row_words.specs.Endings.{IsEndedBy, can_end};

use crate::acts::reason_of;
use jobs::Ending;
use s3_model::{Mark, Op, OutOfMemory, Reply, Text, Tries, UploadId, Why};
use std::alloc::Global;

/// The attempts of a job, and its ending.
#[derive(Drop)]
pub struct Ended {
    pub tries: Tries,
    pub ending: Ending,
}

fn earlier_mark(word: &str) -> Option<Mark>
    ensures { IfSome result (λ each. each ≢ mark.Success) }
{
    if word == "lost" {
        Some(Mark::Uncertain)
    } else if word.starts_with("refused/") {
        Some(Mark::Refusal)
    } else {
        None
    }
}

fn add_earlier(tries: &mut Tries, made: Mark)
    requires few { length tries.old < 9 }
    requires none { HaveNoSuccess tries.old }
    requires made { made ≢ mark.Success }
    ensures none { HaveNoSuccess tries.new }
    ensures few { length tries.new < 10 }
{
    tries.add(made);
}

/// The attempts before the last.
fn earlier(words: &str) -> Option<Tries>
    ensures none { IfSome result (λ tries. HaveNoSuccess tries) }
    ensures few { IfSome result (λ tries. length tries < 10) }
{
    let mut tries = Tries::none();
    for word in words.split(' ') {
        if !word.is_empty() && tries.as_slice().len() < 9 {
            add_earlier(&mut tries, earlier_mark(word)?);
        }
    }
    Some(tries)
}

fn number(word: &str) -> Option<u64> {
    word.parse().ok()
}

fn got_range(status: u16, range: &str, size: &str) -> Option<Reply>
    ensures { IfSome result (IsReplyTo op.Get) }
{
    let (first, last) = range.split_once('-')?;
    let (first, last) = (number(first)?, number(last)?);
    Some(Reply::Got {
        status,
        range: Some((first, last, number(size)?)),
        length: last.checked_sub(first)?.checked_add(1)?,
    })
}

/// The reply to a Get: a range of an object of that size, or the whole of an object.
fn got(words: &str) -> Option<Reply>
    ensures { IfSome result (IsReplyTo op.Get) }
{
    let (status, place) = words.split_once('/')?;
    let status = status.parse().ok()?;
    match place.split_once('/') {
        Some((range, size)) => got_range(status, range, size),
        None => Some(Reply::Got {
            status,
            range: None,
            length: number(place)?,
        }),
    }
}

fn stored(alloc: Global, number: u32) -> Result<Reply, OutOfMemory>
    ensures part { IfOk result (IsReplyTo op.Part) }
    ensures copy { IfOk result (IsReplyTo op.PartCopy) }
{
    let etag = Text::from(format!(in alloc; "t{number}")?);
    Ok(Reply::PartStored { etag })
}

fn created() -> Option<Reply>
    ensures { IfSome result (IsReplyTo op.Create) }
{
    Some(Reply::Created {
        upload: UploadId::of("u")?,
    })
}

/// The reply to a job that was gained: of a Get the one that is written, of any other the one that its op has.
fn reply_to(alloc: Global, op: Op, number: u32, words: &str) -> Result<Option<Reply>, OutOfMemory>
    ensures { IfOk result (λ reply. IfSome reply (IsReplyTo op)) }
{
    match op {
        Op::Get => Ok(got(words)),
        Op::Put => Ok(Some(Reply::Stored)),
        Op::Copy => Ok(Some(Reply::Copied)),
        Op::Delete => Ok(Some(Reply::Gone)),
        Op::Abort => Ok(Some(Reply::Gone)),
        Op::Create => Ok(created()),
        Op::Part => Ok(Some(stored(alloc, number)?)),
        Op::PartCopy => Ok(Some(stored(alloc, number)?)),
        Op::Complete => Ok(Some(Reply::Completed)),
        Op::Head | Op::List | Op::Buckets => Ok(None),
    }
}

/// The attempts with the last one.
fn with(mut tries: Tries, last: Mark) -> Tries
    requires few { length tries < 10 }
    requires none { HaveNoSuccess tries }
    ensures ends { EndIn last result }
    ensures few { length result ≤ 10 }
{
    tries.add(last);
    tries
}

fn refused(alloc: Global, tries: Tries, words: &str) -> Result<Option<Ended>, OutOfMemory>
    requires few { length tries < 10 }
    requires none { HaveNoSuccess tries }
    ensures ends { (of_op : Op) → IfOk result (λ ended. IfSome ended (λ e. IsEndedBy e.ending of_op e.tries)) }
    ensures few { IfOk result (λ ended. IfSome ended (λ e. length e.tries ≤ 10)) }
{
    let Some((status, code)) = words.split_once('/') else {
        return Ok(None);
    };
    let Ok(status) = status.parse() else {
        return Ok(None);
    };
    let code = Text::of(alloc, code)?;
    let message = Text::of(alloc, "m")?;
    Ok(Some(Ended {
        tries: with(tries, Mark::Refusal),
        ending: Ending::Refused {
            status,
            code,
            message,
        },
    }))
}

fn gained(tries: Tries, op: Op, reply: Option<Reply>) -> Option<Ended>
    requires few { length tries < 10 }
    requires none { HaveNoSuccess tries }
    requires reply { IfSome reply (IsReplyTo op) }
    ensures ends { IfSome result (λ e. IsEndedBy e.ending op e.tries) }
    ensures few { IfSome result (λ e. length e.tries ≤ 10) }
{
    match reply {
        Some(reply) => Some(Ended {
            tries: with(tries, Mark::Success),
            ending: Ending::Gained(reply),
        }),
        None => None,
    }
}

fn why_of(word: &str) -> Option<Why> {
    match word {
        "" => Some(Why::EndedEarly),
        "WireFailed" => Some(Why::WireFailed),
        "NotHttp" => Some(Why::NotHttp),
        "Memory" => Some(Why::Memory),
        _ => None,
    }
}

fn lost(tries: Tries, word: &str) -> Option<Ended>
    requires few { length tries < 10 }
    requires none { HaveNoSuccess tries }
    ensures ends { (of_op : Op) → IfSome result (λ e. IsEndedBy e.ending of_op e.tries) }
    ensures few { IfSome result (λ e. length e.tries ≤ 10) }
{
    let why = why_of(word)?;
    Some(Ended {
        tries: with(tries, Mark::Uncertain),
        ending: Ending::Uncertain(why),
    })
}

/// No memory was left for one more.
fn without_memory(tries: Tries) -> Ended
    requires few { length tries < 10 }
    requires none { HaveNoSuccess tries }
    ensures ends { (of_op : Op) → IsEndedBy result.ending of_op result.tries }
    ensures few { length result.tries ≤ 10 }
{
    Ended {
        tries,
        ending: Ending::Memory,
    }
}

/// Its cell gave that reason before it made an attempt.
fn cut(word: &str) -> Option<Ended>
    ensures ends { (of_op : Op) → IfSome result (λ e. IsEndedBy e.ending of_op e.tries) }
    ensures few { IfSome result (λ e. length e.tries ≤ 10) }
{
    Some(Ended {
        tries: Tries::none(),
        ending: Ending::Cancelled(reason_of(word)?),
    })
}

/// What a row says came of a job. None where it cannot come of one of that op.
///
/// Before the last attempt stand those that were `lost` or `refused/STATUS/CODE`. The last is one of these, `ok`, of a
/// Get `got/STATUS/LENGTH` or `got/STATUS/FIRST-LAST/SIZE`, or `lost/WHY`. In its place stands `memory`, and in place of
/// all of them `cut/REASON`.
pub fn ended_as(
    alloc: Global,
    op: Op,
    number: u32,
    came: &str,
) -> Result<Option<Ended>, OutOfMemory>
    ensures ends { IfOk result (λ ended. IfSome ended (λ e. IsEndedBy e.ending op e.tries)) }
    ensures few { IfOk result (λ ended. IfSome ended (λ e. length e.tries ≤ 10)) }
{
    let (front, last) = came.rsplit_once(' ').unwrap_or(("", came));
    let Some(tries) = earlier(front) else {
        return Ok(None);
    };
    let (name, words) = last.split_once('/').unwrap_or((last, ""));
    match name {
        "ok" | "got" => Ok(gained(tries, op, reply_to(alloc, op, number, words)?)),
        "refused" => refused(alloc, tries, words),
        "lost" => Ok(lost(tries, words)),
        "cut" => Ok(cut(words)),
        "memory" => Ok(Some(without_memory(tries))),
        _ => Ok(None),
    }
}

/// Whether a job with or without a cell can end so.
pub fn can_end(ending: &Ending, has_cell: bool) -> bool
    ensures { result ≡ can_end ending.now has_cell }
{
    match ending {
        Ending::Cancelled(_) => has_cell,
        _ => true,
    }
}
