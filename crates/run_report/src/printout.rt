//! What a run prints: before its tasks, and of each of them.

ghost use Rattle.std.specs.Prelude.{◌≡◌, ◌≢◌, ◌++◌, [], Some, IfOk, IfSome, OnOk, map, string_bytes};
ghost use Rattle.std.specs.List.{All, flat_map};
ghost use Rattle.result_lines.specs.Tasks.{HasShownCause, HasSource, line_of};
ghost use Rattle.result_lines.specs.Warnings.{IsShown, warning_line};
ghost use Rattle.run_report.specs.Texts.{
  HasLine,
  ending_lines,
  err_part,
  mode_in,
  opening_text,
  out_part,
  warning_lines,
};

use crate::run::Fatal;
use crate::texts::ending_line;
use result_lines::{Line, line_of, warning_of};
use s3_model::{Mode, OutOfMemory, Outcome, Task, Text, Warning, Warnings};
use std::alloc::Global;

/// What is to be printed on standard output and on standard error.
#[derive(Drop)]
pub struct Printout {
    pub out: Text,
    pub err: Text,
}

/// A text without a byte, which takes no memory.
fn empty_text(alloc: Global) -> Text
    ensures { result ≡ [] }
{
    Text::from(String::new(alloc))
}

impl Printout {
    /// Text for standard output alone.
    pub fn of_out(alloc: Global, out: Text) -> Printout
        ensures out { result.out ≡ out }
        ensures err { result.err ≡ [] }
    {
        let err = empty_text(alloc);
        Printout { out, err }
    }

    /// Text for standard error alone.
    pub fn of_err(alloc: Global, err: Text) -> Printout
        ensures out { result.out ≡ [] }
        ensures err { result.err ≡ err }
    {
        let out = empty_text(alloc);
        Printout { out, err }
    }
}

fn add_warning(alloc: Global, text: &mut String, warning: &Warning) -> Result<(), OutOfMemory>
    requires { IsShown warning.now }
    ensures { OnOk result (string_bytes text.new ≡ string_bytes text.old ++ warning_line warning.now) }
{
    let line = warning_of(alloc, warning)?;
    text.push_str(line.as_str())?;
    Ok(())
}

/// Adds the lines of warnings.
fn add_all(alloc: Global, text: &mut String, warnings: &[Warning]) -> Result<(), OutOfMemory>
    requires { All IsShown warnings.now }
    ensures { OnOk result (string_bytes text.new ≡ string_bytes text.old ++ flat_map warning_line warnings.now) }
{
    for warning in warnings {
        add_warning(alloc, text, warning)?;
    }
    Ok(())
}

/// Adds the lines of warnings, of which `--quiet` leaves out each.
fn add_warnings(
    alloc: Global,
    text: &mut String,
    warnings: &Warnings,
    mode: Mode,
) -> Result<(), OutOfMemory>
    requires { All IsShown warnings.now.items }
    ensures { OnOk result (string_bytes text.new ≡ string_bytes text.old ++ warning_lines mode warnings.now.items) }
{
    if mode.quiet {
        return Ok(());
    }
    add_all(alloc, text, warnings.as_slice())
}

fn add_ending(
    alloc: Global,
    text: &mut String,
    words: &[String],
    fatal: &Option<Fatal>,
) -> Result<(), OutOfMemory>
    requires { IfSome fatal.now HasLine }
    ensures text { OnOk result (string_bytes text.new ≡ string_bytes text.old
        ++ ending_lines (map string_bytes words.now) fatal.now) }
    ensures memory { OnOk result (fatal.now ≢ Some Fatal.Memory) }
{
    if let Some(fatal) = fatal {
        let line = ending_line(alloc, words, fatal)?;
        text.push_str(line.as_str())?;
    }
    Ok(())
}

/// What is printed before any task, on standard error: the warnings of planning, and behind them the line of a run that
/// ended early. Where memory ran out for the run there is no text.
pub fn opening_text(
    alloc: Global,
    words: &[String],
    mode: Mode,
    warnings: &Warnings,
    fatal: &Option<Fatal>,
) -> Result<Text, OutOfMemory>
    requires mode { mode ≡ mode_in (map string_bytes words.now) }
    requires shown { All IsShown warnings.now.items }
    requires line { IfSome fatal.now HasLine }
    ensures text { IfOk result (λ text.
        text ≡ opening_text (map string_bytes words.now) warnings.now.items fatal.now) }
    ensures memory { OnOk result (fatal.now ≢ Some Fatal.Memory) }
{
    let mut text = String::new(alloc);
    add_warnings(alloc, &mut text, warnings, mode)?;
    add_ending(alloc, &mut text, words, fatal)?;
    Ok(Text::from(text))
}

/// The line of a task behind what is there for standard error.
fn with_line(alloc: Global, line: Option<Line>, mut err: String) -> Result<Printout, OutOfMemory>
    ensures out { IfOk result (λ said. said.out ≡ out_part line) }
    ensures err { IfOk result (λ said. said.err ≡ string_bytes err ++ err_part line) }
{
    match line {
        Some(line) if line.to_err => {
            err.push_str(line.text.as_str())?;
            Ok(Printout::of_err(alloc, Text::from(err)))
        }
        Some(line) => Ok(Printout {
            out: line.text,
            err: Text::from(err),
        }),
        None => Ok(Printout::of_err(alloc, Text::from(err))),
    }
}

/// What is printed of a task that has an outcome: its own warnings on standard error, and behind them its line, where
/// that belongs.
pub fn task_text(
    alloc: Global,
    task: &Task,
    outcome: &Outcome,
    own: &Warnings,
    mode: Mode,
) -> Result<Printout, OutOfMemory>
    requires source { HasSource task.now }
    requires cause { HasShownCause outcome.now }
    requires shown { All IsShown own.now.items }
    ensures out { IfOk result (λ said. said.out ≡ out_part (line_of task.now outcome.now mode)) }
    ensures err { IfOk result (λ said. said.err ≡ warning_lines mode own.now.items
        ++ err_part (line_of task.now outcome.now mode)) }
{
    let mut err = String::new(alloc);
    add_warnings(alloc, &mut err, own, mode)?;
    let line = line_of(alloc, task, outcome, mode)?;
    with_line(alloc, line, err)
}
