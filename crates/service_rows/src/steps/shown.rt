//! What came of a step, as text.

use crate::steps::desk::Answer;
use s3_model::{Cause, Class, Entry, Listed, Mark, Outcome, Reply, Text, Why};
use std::alloc::{AllocError, Global};

/// A name with spaces as `+`.
fn push_name(out: &mut String, name: &str) -> Result<(), AllocError> {
    for letter in name.chars() {
        out.push(if letter == ' ' { '+' } else { letter })?;
    }
    Ok(())
}

/// What stands of an entry behind its name.
fn entry_rest(alloc: Global, entry: &Entry) -> Result<String, AllocError> {
    let (size, etag, micros) = (entry.size, entry.etag.as_str(), entry.micros);
    format!(in alloc; ",{size},{etag},{micros}")
}

fn push_entry(alloc: Global, out: &mut String, entry: &Entry) -> Result<(), AllocError> {
    let rest = entry_rest(alloc, entry)?;
    out.push(' ')?;
    push_name(out, entry.key.as_str())?;
    out.push_str(rest.as_str())
}

fn push_entries(alloc: Global, out: &mut String, entries: &[Entry]) -> Result<(), AllocError> {
    for entry in entries {
        push_entry(alloc, out, entry)?;
    }
    Ok(())
}

fn push_prefix(out: &mut String, prefix: &str) -> Result<(), AllocError> {
    out.push_str(" {")?;
    push_name(out, prefix)?;
    out.push('}')
}

fn push_prefixes(out: &mut String, prefixes: &[Text]) -> Result<(), AllocError> {
    for prefix in prefixes {
        push_prefix(out, prefix.as_str())?;
    }
    Ok(())
}

/// What a page says of more names.
fn page_start(alloc: Global, page: &Listed) -> Result<String, AllocError> {
    let start = if page.more { "page more" } else { "page" };
    match &page.token {
        Some(token) => with_word(alloc, start, token.as_str()),
        None => String::from_str(alloc, start),
    }
}

fn page(alloc: Global, page: &Listed) -> Result<String, AllocError> {
    let mut out = page_start(alloc, page)?;
    push_entries(alloc, &mut out, page.entries.as_slice())?;
    push_prefixes(&mut out, page.prefixes.as_slice())?;
    Ok(out)
}

fn buckets(alloc: Global, entries: &[Entry]) -> Result<String, AllocError> {
    let mut out = String::from_str(alloc, "buckets")?;
    push_entries(alloc, &mut out, entries)?;
    Ok(out)
}

/// The range and the whole length of what came.
fn range_text(alloc: Global, range: Option<(u64, u64, u64)>) -> Result<String, AllocError> {
    match range {
        Some((first, last, size)) => format!(in alloc; " {first}-{last}/{size}"),
        None => Ok(String::new(alloc)),
    }
}

fn got_text(
    alloc: Global,
    status: u16,
    length: u64,
    range: &str,
    text: &str,
) -> Result<String, AllocError> {
    format!(in alloc; "got {status} {length}{range} [{text}]")
}

fn got(
    alloc: Global,
    status: u16,
    range: Option<(u64, u64, u64)>,
    length: u64,
    bytes: &[u8],
) -> Result<String, AllocError> {
    let range = range_text(alloc, range)?;
    let text = std::str::from_utf8(bytes).unwrap_or("?");
    got_text(alloc, status, length, range.as_str(), text)
}

fn found(alloc: Global, size: u64, etag: &str, micros: u64) -> Result<String, AllocError> {
    format!(in alloc; "found {size} {etag} {micros}")
}

fn with_word(alloc: Global, word: &str, text: &str) -> Result<String, AllocError> {
    format!(in alloc; "{word} {text}")
}

/// The name of a reply that says nothing else.
fn reply_name(reply: &Reply) -> &'static str {
    match reply {
        Reply::Stored => "stored",
        Reply::Gone => "gone",
        Reply::Copied => "copied",
        Reply::Completed => "completed",
        _ => "?",
    }
}

fn reply_text(alloc: Global, reply: &Reply, bytes: &[u8]) -> Result<String, AllocError> {
    match reply {
        Reply::Found { size, etag, micros } => found(alloc, *size, etag.as_str(), *micros),
        Reply::Got {
            status,
            range,
            length,
        } => got(alloc, *status, *range, *length, bytes),
        Reply::Created { upload } => with_word(alloc, "created", upload.as_str()),
        Reply::PartStored { etag } => with_word(alloc, "part", etag.as_str()),
        Reply::Listed(listed) => page(alloc, listed),
        Reply::BucketList(entries) => buckets(alloc, entries.as_slice()),
        _ => String::from_str(alloc, reply_name(reply)),
    }
}

fn open(alloc: Global, why: Why) -> Result<String, AllocError> {
    format!(in alloc; "open {why:?}")
}

/// What an answer means.
pub(crate) fn answer_text(alloc: Global, answer: &Answer) -> Result<String, AllocError> {
    match &answer.class {
        Class::Success(gained) => reply_text(alloc, gained, answer.bytes.as_slice()),
        Class::Refusal { code, .. } => with_word(alloc, "refused", code.as_str()),
        Class::Uncertain(why) => open(alloc, *why),
    }
}

fn mark_name(mark: Mark) -> &'static str {
    match mark {
        Mark::Success => "success",
        Mark::Refusal => "refusal",
        Mark::Uncertain => "uncertain",
    }
}

/// The marks of a job's attempts, with commas between them.
pub(crate) fn push_marks(out: &mut String, marks: &[Mark]) -> Result<(), AllocError> {
    for mark in marks {
        out.push_str(mark_name(*mark))?;
        out.push(' ')?;
    }
    Ok(())
}

/// The cause of an outcome.
fn cause_text(alloc: Global, cause: &Cause) -> Result<String, AllocError> {
    match cause {
        Cause::Service { code, .. } => with_word(alloc, "refused", code.as_str()),
        _ => String::from_str(alloc, "other"),
    }
}

fn with_cause(alloc: Global, word: &str, cause: &Cause) -> Result<String, AllocError> {
    let cause = cause_text(alloc, cause)?;
    let cause = cause.as_str();
    format!(in alloc; "{word}: {cause}")
}

/// What became of a task.
pub(crate) fn outcome_text(alloc: Global, outcome: &Outcome) -> Result<String, AllocError> {
    match outcome {
        Outcome::Done => String::from_str(alloc, "done"),
        Outcome::Failed(cause) => with_cause(alloc, "failed", cause),
        Outcome::Unknown(cause) => with_cause(alloc, "unknown", cause),
        _ => String::from_str(alloc, "other"),
    }
}
