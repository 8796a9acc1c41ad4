//! What is done to a service in memory, with what comes of each step.
//!
//! A step is words with one space between them, of which the first names it. `-` is the empty text, or nothing; escapes
//! are those of a URL, and `+` is a space. `interop/services.py` writes the steps and, from the rules, the answers.
//!
//! `new` begins with a service without buckets and a wire to it, `rewire` takes a new wire to the same service, and
//! `bucket NAME` and `page N` add a bucket and set the most names of a page. `script TURN N TEXT` says what is done to
//! the Nth request that begins with the text, or with `*` to each: `lost-before`, `lost-after`, `late:N`, `cut:N`,
//! `refuse:STATUS:CODE`, `close`, `followed`, `chunked:N` or `split:N`. `foreign N put BUCKET KEY BYTES` and
//! `foreign N remove BUCKET KEY` are what somebody else does before the Nth request of all.
//!
//! A step with the name of a request sends it. A Put and a Part begin with their bytes, entity tags stand without
//! quotes, ranges are `A-B`, `fresh` at the end replaces nothing, and `/` delimits a listing. `upload BYTES BUCKET KEY`
//! has a Put carried with three attempts, whose marks stand before its outcome. `show BUCKET KEY` is what stands there,
//! and `wire` what the wire shows: its talks, its connections, its faults, its pauses in seconds.

mod asks;
pub(crate) mod desk;
mod scripts;
mod setting;
mod shown;
mod uploads;
mod words;

use crate::steps::asks::{Request, op_named, request_of};
use crate::steps::desk::{Answer, Desk, send};
use crate::steps::setting::{arrange, shown_object};
use crate::steps::shown::answer_text;
use crate::steps::uploads::carry_upload;
use crate::steps::words::Words;
use outside_memory::WireNote;
use s3_model::OutOfMemory;
use s3_outside::Wire;
use std::alloc::{AllocError, Global};
use std::mem;
use std::sync::Wait;

fn show<R: Wait + Clone + Drop>(
    alloc: Global,
    rt: &R,
    desk: &Desk<R>,
    words: &mut Words<'_>,
) -> Result<String, OutOfMemory> {
    let spot = words.spot(alloc);
    let table = desk.table.lock(rt);
    let shown = shown_object(alloc, &table, &spot);
    mem::drop(table);
    Ok(shown?)
}

fn push_pause(alloc: Global, out: &mut String, seconds: u32) -> Result<(), AllocError> {
    let text = format!(in alloc; " {seconds}")?;
    out.push_str(text.as_str())
}

/// The seconds of the pauses that a wire was asked for.
fn pauses(alloc: Global, notes: &[WireNote]) -> Result<String, AllocError> {
    let mut out = String::from_str(alloc, "pauses")?;
    for note in notes {
        if let WireNote::Pause(seconds) = note {
            push_pause(alloc, &mut out, *seconds)?;
        }
    }
    Ok(out)
}

fn wire_text(
    alloc: Global,
    talks: usize,
    opened: u32,
    faults: u64,
    pauses: &str,
) -> Result<String, AllocError> {
    format!(in alloc; "talks {talks} opened {opened} faults {faults} {pauses}")
}

/// What the wire shows: its talks, its connections, its faults and its pauses.
fn wire_shown<R: Wait + Clone + Drop>(
    alloc: Global,
    desk: &Desk<R>,
) -> Result<String, OutOfMemory> {
    let (talks, opened) = (desk.wire.talks().len(), desk.wire.opened());
    let faults = desk.wire.faults();
    let pauses = pauses(alloc, desk.wire.notes())?;
    Ok(wire_text(alloc, talks, opened, faults, pauses.as_str())?)
}

fn set_up<R: Wait + Clone + Drop>(
    alloc: Global,
    rt: &R,
    desk: &Desk<R>,
    name: &str,
    words: &mut Words<'_>,
) -> Result<String, OutOfMemory> {
    let mut table = desk.table.lock(rt);
    let came = arrange(alloc, &mut table, name, words);
    mem::drop(table);
    Ok(String::from_str(alloc, came?)?)
}

/// What an answer means, which is let go.
fn answer_shown(alloc: Global, answer: Answer) -> Result<String, AllocError> {
    let text = answer_text(alloc, &answer);
    mem::drop(answer);
    text
}

/// Sends a request, which is let go, and says what its answer means.
fn sent<W: Wire>(alloc: Global, wire: &mut W, request: Request) -> Result<String, OutOfMemory> {
    let answer = send(alloc, wire, &request.ask, request.bytes.as_str().as_bytes());
    mem::drop(request);
    match answer {
        Ok(answer) => Ok(answer_shown(alloc, answer)?),
        Err(OutOfMemory) => Err(OutOfMemory),
    }
}

/// Begins with a new wire, which goes to a new service without buckets or to the same one.
fn begin<R: Wait + Clone + Drop>(
    alloc: Global,
    rt: &R,
    desk: &mut Desk<R>,
    is_new: bool,
) -> Result<String, OutOfMemory> {
    if is_new {
        desk.renew(alloc)?;
    }
    desk.rewire(alloc, rt)?;
    Ok(String::from_str(alloc, "ok")?)
}

/// Does a step that is no request.
fn other<R: Wait + Clone + Drop>(
    alloc: Global,
    rt: &R,
    desk: &mut Desk<R>,
    name: &str,
    words: &mut Words<'_>,
) -> Result<String, OutOfMemory> {
    match name {
        "new" => begin(alloc, rt, desk, true),
        "rewire" => begin(alloc, rt, desk, false),
        "show" => show(alloc, rt, desk, words),
        "wire" => wire_shown(alloc, desk),
        "upload" => carry_upload(alloc, &mut desk.wire, words),
        _ => set_up(alloc, rt, desk, name, words),
    }
}

/// Does a step, and says what came of it.
fn result_of<R: Wait + Clone + Drop>(
    alloc: Global,
    rt: &R,
    desk: &mut Desk<R>,
    line: &str,
) -> Result<String, OutOfMemory> {
    let mut words = Words::of(line);
    let name = words.next();
    match op_named(name) {
        Some(op) => sent(alloc, &mut desk.wire, request_of(alloc, op, &mut words)),
        None => other(alloc, rt, desk, name, &mut words),
    }
}

/// A step with what comes of it.
pub(crate) fn row_of<R: Wait + Clone + Drop>(
    alloc: Global,
    rt: &R,
    desk: &mut Desk<R>,
    line: &str,
) -> Result<String, AllocError> {
    match result_of(alloc, rt, desk, line) {
        Ok(result) => format!(in alloc; "{line} => {result}"),
        Err(OutOfMemory) => Err(AllocError),
    }
}
