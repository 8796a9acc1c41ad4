//! The scripts of steps.

use crate::steps::words::{Spot, Words, number_of};
use crate::texts::text_or_empty;
use s3_fakes::{Ending, ForeignWrite, Form, MemTable, Turn};
use s3_model::{OutOfMemory, Text};
use std::alloc::Global;

/// An Error document with a code.
fn document(alloc: Global, code: &str) -> Text {
    let behind = "</Code><Message>by script</Message></Error>";
    text_or_empty(alloc, Text::joined(alloc, &["<Error><Code>", code, behind]))
}

/// A refusal that is written `refuse:STATUS:CODE`.
fn refusal(alloc: Global, rest: &str) -> Option<Turn> {
    let (status, code) = rest.split_once(':').unwrap_or((rest, ""));
    let status = status.parse::<u16>().ok()?;
    let document = document(alloc, code);
    Some(Turn::Refuse { status, document })
}

/// A turn with a number behind a colon.
fn counted(name: &str, number: u64) -> Option<Turn> {
    let count = usize::try_from(number).ok()?;
    match name {
        "late" => Some(Turn::End(Ending::Late(number))),
        "cut" => Some(Turn::End(Ending::Cut(count))),
        "chunked" => Some(Turn::Come(Form::Chunked(count))),
        "split" => Some(Turn::Come(Form::Split(count))),
        _ => None,
    }
}

/// A turn without a number.
fn plain(word: &str) -> Option<Turn> {
    match word {
        "lost-before" => Some(Turn::End(Ending::LostBefore)),
        "lost-after" => Some(Turn::End(Ending::LostAfter)),
        "close" => Some(Turn::Come(Form::Closing)),
        "followed" => Some(Turn::Come(Form::Followed)),
        _ => None,
    }
}

/// A turn as it is written; None where it is none.
fn turn_of(alloc: Global, word: &str) -> Option<Turn> {
    if let Some(rest) = word.strip_prefix("refuse:") {
        return refusal(alloc, rest);
    }
    match word.split_once(':') {
        Some((name, number)) => counted(name, number_of(number).unwrap_or(0)),
        None => plain(word),
    }
}

/// Adds a turn to the script of a service, where it is one.
pub(crate) fn add_turn(
    alloc: Global,
    table: &mut MemTable,
    words: &mut Words<'_>,
) -> Result<(), OutOfMemory> {
    let turn = turn_of(alloc, words.next());
    // A turn without a number is for each request.
    let number = number_of(words.next());
    match turn {
        Some(turn) => table.script(words.rest(), number, turn),
        None => Ok(()),
    }
}

fn foreign_put(alloc: Global, words: &mut Words<'_>) -> ForeignWrite {
    let Spot { bucket, key } = words.spot(alloc);
    let bytes = words.bytes(alloc);
    ForeignWrite::Put { bucket, key, bytes }
}

fn foreign_remove(alloc: Global, words: &mut Words<'_>) -> ForeignWrite {
    let Spot { bucket, key } = words.spot(alloc);
    ForeignWrite::Remove { bucket, key }
}

/// Somebody else writes before a request.
pub(crate) fn add_write(
    alloc: Global,
    table: &mut MemTable,
    words: &mut Words<'_>,
) -> Result<(), OutOfMemory> {
    let number = words.number();
    let write = if words.is("put") {
        foreign_put(alloc, words)
    } else {
        foreign_remove(alloc, words)
    };
    table.write_before(number, write)
}
