//! Lines of tasks, and the status of a run.

ghost use Rattle.result_lines.specs.Tasks.{HasShownCause, HasSource};

use crate::lines::{number, text_of, word_and_rest};
use crate::printed::causes::cause_of;
use crate::printed::values::{front_and_rest, place_of};
use result_lines::{Line, Mode, line_of, status_of};
use s3_model::{Kind, OutOfMemory, Outcome, Outcomes, Task, Text};
use std::alloc::Global;
use std::mem;

fn kind_of(name: &str) -> Kind {
    match name {
        "Upload" => Kind::Upload,
        "Download" => Kind::Download,
        "Copy" => Kind::Copy,
        "RemoveObject" => Kind::RemoveObject,
        _ => Kind::RemoveFile,
    }
}

/// How a task ended: the name of the outcome, and its cause, if it has one.
fn outcome_of(alloc: Global, written: &str) -> Outcome
    ensures { HasShownCause result }
{
    let (name, cause) = word_and_rest(written);
    match name {
        "Done" => Outcome::Done,
        "Dry" => Outcome::Dry,
        "Failed" => Outcome::Failed(cause_of(alloc, cause)),
        "Unknown" => Outcome::Unknown(cause_of(alloc, cause)),
        "Copied" => Outcome::Copied(cause_of(alloc, cause)),
        _ => Outcome::Skipped,
    }
}

/// A task: its kind, its source and its destination. It has a source, which a removal does not need.
fn task_of(alloc: Global, moves: bool, written: &str) -> Task
    ensures { HasSource result }
{
    let (kind, places) = word_and_rest(written);
    let (source, dest) = word_and_rest(places);
    Task {
        kind: kind_of(kind),
        moves,
        source: Some(place_of(alloc, source)),
        dest: place_of(alloc, dest),
        size: 0,
        etag: text_of(alloc, ""),
        micros: 0,
        content: None,
        fresh: false,
    }
}

/// The mode of a run with these options.
fn mode_of(options: &str) -> Mode {
    Mode {
        dryrun: false,
        quiet: options.contains("quiet"),
        only_errors: options.contains("errors"),
    }
}

/// The output that a line goes to, and its text.
fn line_shown(alloc: Global, line: &Line) -> Result<Text, OutOfMemory> {
    let output = if line.to_err { "stderr: " } else { "stdout: " };
    Text::joined(alloc, &[output, line.text.as_str()])
}

fn answer(alloc: Global, line: Result<Option<Line>, OutOfMemory>) -> Result<Text, OutOfMemory> {
    match line {
        Ok(Some(line)) => line_shown(alloc, &line),
        Ok(None) => Text::of(alloc, "no line"),
        Err(OutOfMemory) => Err(OutOfMemory),
    }
}

/// The line of a task: options, how it ended, and the task.
pub(crate) fn line(alloc: Global, given: &str) -> Result<Text, OutOfMemory> {
    let (options, given) = front_and_rest(given);
    let (ended, task) = front_and_rest(given);
    let task = task_of(alloc, options.contains("moves"), task);
    let outcome = outcome_of(alloc, ended);
    let line = line_of(alloc, &task, &outcome, mode_of(options));
    mem::drop(outcome);
    mem::drop(task);
    answer(alloc, line)
}

fn push_outcome(alloc: Global, outcomes: &mut Outcomes, written: &str) -> Result<(), OutOfMemory> {
    outcomes.reserve(1)?;
    outcomes.push(outcome_of(alloc, written));
    Ok(())
}

/// How two tasks ended.
fn both(alloc: Global, written: &str) -> Result<Outcomes, OutOfMemory> {
    let (first, second) = front_and_rest(written);
    let mut outcomes = Outcomes::make(alloc);
    push_outcome(alloc, &mut outcomes, first)?;
    push_outcome(alloc, &mut outcomes, second)?;
    Ok(outcomes)
}

/// The status of a run: how many warnings there were, and how two tasks ended.
pub(crate) fn status(alloc: Global, given: &str) -> Result<Text, OutOfMemory> {
    let (warnings, ended) = front_and_rest(given);
    let outcomes = both(alloc, ended)?;
    match status_of(&outcomes, number(warnings)) {
        0 => Text::of(alloc, "0"),
        1 => Text::of(alloc, "1"),
        _ => Text::of(alloc, "2"),
    }
}
