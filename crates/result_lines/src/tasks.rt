//! The lines of tasks with their outcomes, and the status of a run.

ghost use Rattle.std.specs.Prelude.{◌≡◌, ◌++◌, IfOk, codes};
ghost use Rattle.std.specs.List.{list_any};
ghost use Rattle.result_lines.specs.Causes.{IsShown, cause_text};
ghost use Rattle.result_lines.specs.Tasks.{
  HasShownCause,
  HasSource,
  goes_to_err,
  is_left_out,
  is_no_error,
  is_removal,
  is_unfinished,
  kind_verb,
  line_of,
  names,
  place_text,
  status_of,
  task_text,
  verb,
};

use crate::causes::cause_text;
use crate::lines::{three_in_line, two_in_line};
use s3_model::{Cause, Kind, Mode, OutOfMemory, Outcome, Outcomes, Place, Task, Text};
use std::alloc::Global;
use std::mem;

/// A line that is printed, with its line feed: to standard error or to standard output.
#[derive(Drop)]
pub struct Line {
    pub to_err: bool,
    pub text: Text,
}

pub(crate) fn place_text(alloc: Global, place: &Place) -> Result<Text, OutOfMemory>
    ensures { IfOk result (λ text. text ≡ place_text place.now) }
{
    match place {
        Place::Object { bucket, key } => {
            Text::joined(alloc, &["s3://", bucket.as_str(), "/", key.as_str()])
        }
        Place::File { path } => path.copy(),
    }
}

fn kind_verb(kind: Kind) -> &'static str
    ensures { result.now ≡ kind_verb kind }
{
    match kind {
        Kind::Upload => "upload",
        Kind::Download => "download",
        Kind::Copy => "copy",
        Kind::RemoveObject | Kind::RemoveFile => "delete",
    }
}

fn verb(task: &Task) -> &'static str
    ensures { result.now ≡ verb task.now }
{
    if task.moves {
        "move"
    } else {
        kind_verb(task.kind)
    }
}

fn is_removal(kind: Kind) -> bool
    ensures { result ≡ is_removal kind }
{
    matches!(kind, Kind::RemoveObject | Kind::RemoveFile)
}

/// What the task reads and writes, or removes.
fn names(alloc: Global, task: &Task, dest: &str) -> Result<Text, OutOfMemory>
    requires source { HasSource task.now }
    requires dest { dest.now ≡ place_text task.now.dest }
    ensures { IfOk result (λ text. text ≡ names task.now) }
{
    if is_removal(task.kind) {
        return Text::of(alloc, dest);
    }
    let Some(source) = &task.source else {
        unreachable!();
    };
    let source = place_text(alloc, source)?;
    Text::joined(alloc, &[source.as_str(), " to ", dest])
}

/// The text of an outcome with a cause.
fn cause_line<'a>(
    alloc: Global,
    verb: &'a str,
    ending: &'a str,
    names: &'a str,
    cause: &Cause,
    dest: &str,
) -> Result<Text, OutOfMemory>
    requires { IsShown cause.now }
    ensures { IfOk result (λ text. text ≡ (verb.now ++ ending.now ++ names.now ++ codes " "
        ++ cause_text dest.now cause.now) ++ codes "\n") }
{
    let cause = cause_text(alloc, cause, dest)?;
    Text::joined(alloc, &[verb, ending, names, " ", cause.as_str(), "\n"])
}

/// The text of a task with what it names and the text of its destination.
fn outcome_line(
    alloc: Global,
    task: &Task,
    outcome: &Outcome,
    places: &str,
    dest: &str,
) -> Result<Text, OutOfMemory>
    requires cause { HasShownCause outcome.now }
    requires places { places.now ≡ names task.now }
    requires dest { dest.now ≡ place_text task.now.dest }
    ensures { IfOk result (λ text. text ≡ task_text task.now outcome.now ++ codes "\n") }
{
    let verb = verb(task);
    match outcome {
        Outcome::Done => two_in_line(alloc, verb, ": ", places),
        Outcome::Dry => three_in_line(alloc, "(dryrun) ", verb, ": ", places),
        Outcome::Failed(cause) => cause_line(alloc, verb, " failed: ", places, cause, dest),
        Outcome::Unknown(cause) => cause_line(alloc, verb, " unknown: ", places, cause, dest),
        Outcome::Copied(cause) => cause_line(alloc, "move", " copied: ", places, cause, dest),
        Outcome::Skipped => two_in_line(alloc, verb, " skipped: ", places),
    }
}

/// The text of a task whose destination has that text.
fn text_to(alloc: Global, task: &Task, outcome: &Outcome, dest: &str) -> Result<Text, OutOfMemory>
    requires source { HasSource task.now }
    requires cause { HasShownCause outcome.now }
    requires dest { dest.now ≡ place_text task.now.dest }
    ensures { IfOk result (λ text. text ≡ task_text task.now outcome.now ++ codes "\n") }
{
    let places = names(alloc, task, dest)?;
    let text = outcome_line(alloc, task, outcome, places.as_str(), dest);
    mem::drop(places);
    text
}

fn task_text(alloc: Global, task: &Task, outcome: &Outcome) -> Result<Text, OutOfMemory>
    requires source { HasSource task.now }
    requires cause { HasShownCause outcome.now }
    ensures { IfOk result (λ text. text ≡ task_text task.now outcome.now ++ codes "\n") }
{
    let dest = place_text(alloc, &task.dest)?;
    let text = text_to(alloc, task, outcome, dest.as_str());
    mem::drop(dest);
    text
}

fn goes_to_err(outcome: &Outcome) -> bool
    ensures { result ≡ goes_to_err outcome.now }
{
    !matches!(outcome, Outcome::Done | Outcome::Dry)
}

fn is_no_error(outcome: &Outcome) -> bool
    ensures { result ≡ is_no_error outcome.now }
{
    matches!(outcome, Outcome::Done | Outcome::Dry | Outcome::Skipped)
}

fn is_left_out(outcome: &Outcome, mode: Mode) -> bool
    ensures { result ≡ is_left_out outcome.now mode }
{
    mode.quiet || mode.only_errors && is_no_error(outcome)
}

/// The line of a task, where one is printed.
///
/// `--quiet` leaves out every line, `--only-show-errors` those of Done, Dry and Skipped. Done and Dry go to standard
/// output, all others to standard error. The lines of Done, Dry and Failed are the AWS CLI's. A task that is no removal
/// needs a source.
pub fn line_of(
    alloc: Global,
    task: &Task,
    outcome: &Outcome,
    mode: Mode,
) -> Result<Option<Line>, OutOfMemory>
    requires source { HasSource task.now }
    requires cause { HasShownCause outcome.now }
    ensures { IfOk result (λ line. line ≡ line_of task.now outcome.now mode) }
{
    if is_left_out(outcome, mode) {
        return Ok(None);
    }
    let text = task_text(alloc, task, outcome)?;
    Ok(Some(Line {
        to_err: goes_to_err(outcome),
        text,
    }))
}

fn is_unfinished(outcome: &Outcome) -> bool
    ensures { result ≡ is_unfinished outcome.now }
{
    matches!(
        outcome,
        Outcome::Failed(_) | Outcome::Unknown(_) | Outcome::Copied(_)
    )
}

fn any_unfinished(outcomes: &[Outcome]) -> bool
    ensures { result ≡ list_any is_unfinished outcomes.now }
{
    outcomes.iter().any(is_unfinished)
}

/// The status of a run whose plan was carried out: 1 where an outcome is Failed, Unknown or Copied, else 2 where there
/// are warnings, else 0.
pub fn status_of(outcomes: &Outcomes, warnings: u64) -> u8
    ensures { result ≡ status_of outcomes.now.items warnings }
{
    if any_unfinished(outcomes.as_slice()) {
        1
    } else if warnings > 0 {
        2
    } else {
        0
    }
}
