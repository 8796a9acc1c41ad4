//! What a run came to, and what its wire did.

use crate::worked::given::Given;
use crate::worked::play::End;
use outside_memory::{ScriptWire, TalkRecord, WireNote};
use s3_model::OutOfMemory;
use std::alloc::{AllocError, Global};

fn text(bytes: &[u8]) -> &str {
    str::from_utf8(bytes).unwrap_or("no UTF-8")
}

fn end_shown(alloc: Global, end: End, given: &Given) -> Result<String, AllocError> {
    let how = if end.stopped { "stopped" } else { "ended" };
    let status = end.status;
    let (out, err) = (text(given.out.got()), text(given.err.got()));
    format!(in alloc; " {how} {status} out {out:?} err {err:?}")
}

/// The status of a run, whether it ended before its plan, and its outputs.
pub(crate) fn ended(alloc: Global, end: End, given: &Given) -> Result<String, OutOfMemory> {
    Ok(end_shown(alloc, end, given)?)
}

/// What is shown of a request: of a GET its first line, of another all of it.
fn seen_of(sent: &str) -> &str {
    match sent.split_once("\r\n") {
        Some((line, _)) if line.starts_with("GET ") => line,
        _ => sent,
    }
}

fn sent_shown(alloc: Global, talk: &TalkRecord) -> Result<String, AllocError> {
    let sent = seen_of(text(talk.sent.as_slice()));
    format!(in alloc; " sent {sent:?}")
}

fn pause_shown(alloc: Global, seconds: u32) -> Result<String, AllocError> {
    format!(in alloc; " paused {seconds}")
}

fn opened_shown(alloc: Global, wire: &ScriptWire) -> Result<String, AllocError> {
    let opened = wire.opened();
    format!(in alloc; " opened {opened}")
}

fn push_sent(alloc: Global, shown: &mut String, talks: &[TalkRecord]) -> Result<(), AllocError> {
    for talk in talks {
        let sent = sent_shown(alloc, talk)?;
        shown.push_str(sent.as_str())?;
    }
    Ok(())
}

/// Adds the pauses, in seconds.
fn push_pauses(alloc: Global, shown: &mut String, notes: &[WireNote]) -> Result<(), AllocError> {
    for note in notes {
        if let WireNote::Pause(seconds) = note {
            let pause = pause_shown(alloc, *seconds)?;
            shown.push_str(pause.as_str())?;
        }
    }
    Ok(())
}

/// Adds what a wire sent, its pauses, and how many connections it opened.
fn push_wire(alloc: Global, shown: &mut String, wire: &ScriptWire) -> Result<(), AllocError> {
    push_sent(alloc, shown, wire.talks())?;
    push_pauses(alloc, shown, wire.notes())?;
    let opened = opened_shown(alloc, wire)?;
    shown.push_str(opened.as_str())
}

/// Adds what each wire did.
pub(crate) fn push_talks(
    alloc: Global,
    shown: &mut String,
    wires: &[ScriptWire],
) -> Result<(), OutOfMemory> {
    for wire in wires {
        push_wire(alloc, shown, wire)?;
    }
    Ok(())
}
