//! Runs without a task.

ghost use Rattle.std.specs.Prelude.{◌≡◌, [], ◌∷◌, None, Some, IfOk, IfSome, map, string_bytes};
ghost use Rattle.std.specs.List.{All};
ghost use Rattle.result_lines.specs.Warnings.{IsShown};
ghost use Rattle.run_report.specs.Taskless.{ArePlanning, HasNoTask};
ghost use Rattle.run_report.specs.Texts.{
  HasLine,
  HasTexts,
  IsTextOf,
  MatchesFatal,
  ending_line,
  mode_in,
  opening_text,
};

use crate::lists::list_of;
use crate::printout::{Printout, opening_text};
use crate::run::{Fatal, Run};
use crate::texts::ending_line;
use crate::worked::Executed;
use s3_model::{
    Journal, KeySkip, Mode, OutOfMemory, Outcomes, Place, Plan, Tasks, Text, Warning, Warnings,
};
use std::alloc::Global;

/// A run without a task, with these warnings of its plan and all warnings.
fn idle_run(alloc: Global, fatal: Option<Fatal>, skips: Warnings, warnings: Warnings) -> Run
    ensures { HasNoTask fatal skips.items warnings.items result }
{
    Run {
        status: 0,
        plan: Plan {
            tasks: Tasks::make(alloc),
            warnings: skips,
        },
        outcomes: Outcomes::make(alloc),
        journal: Journal::make(alloc),
        warnings,
        fatal,
    }
}

/// What a run without a task prints.
fn idle_text(
    alloc: Global,
    words: &[String],
    mode: Mode,
    warnings: &Warnings,
    fatal: &Option<Fatal>,
) -> Result<Printout, OutOfMemory>
    requires mode { mode ≡ mode_in (map string_bytes words.now) }
    requires shown { All IsShown warnings.now.items }
    requires line { IfSome fatal.now HasLine }
    ensures text { HasTexts [] (opening_text (map string_bytes words.now) warnings.now.items fatal.now) result }
    ensures memory { MatchesFatal fatal.now result }
{
    let text = opening_text(alloc, words, mode, warnings, fatal)?;
    Ok(Printout::of_err(alloc, text))
}

/// Ends a run without a task: its warnings are to be printed, and behind them why it ended early, if it did. `skips`
/// are those of its plan, with which `warnings` end.
pub fn end_idle(
    alloc: Global,
    words: &[String],
    mode: Mode,
    fatal: Option<Fatal>,
    skips: Warnings,
    warnings: Warnings,
) -> Executed
    requires mode { mode ≡ mode_in (map string_bytes words.now) }
    requires shown { All IsShown warnings.items }
    requires line { IfSome fatal HasLine }
    requires planning { ArePlanning skips.items warnings.items }
    ensures text { IsTextOf (map string_bytes words.now) [] result.run result.text }
    ensures run { HasNoTask fatal skips.items warnings.items result.run }
{
    let text = idle_text(alloc, words, mode, &warnings, &fatal);
    Executed {
        run: idle_run(alloc, fatal, skips, warnings),
        text,
    }
}

/// What a run without a warning prints that ended early.
pub fn ending_text(alloc: Global, words: &[String], fatal: &Fatal) -> Result<Printout, OutOfMemory>
    requires { HasLine fatal.now }
    ensures text { HasTexts [] (ending_line (map string_bytes words.now) fatal.now) result }
    ensures memory { MatchesFatal (Some fatal.now) result }
{
    let line = ending_line(alloc, words, fatal)?;
    Ok(Printout::of_err(alloc, line))
}

/// Ends a run before its plan.
pub fn end_early(alloc: Global, words: &[String], fatal: Fatal) -> Executed
    requires { HasLine fatal }
    ensures text { IsTextOf (map string_bytes words.now) [] result.run result.text }
    ensures run { HasNoTask (Some fatal) [] [] result.run }
{
    let text = ending_text(alloc, words, &fatal);
    let skips = Warnings::make(alloc);
    Executed {
        run: idle_run(alloc, Some(fatal), skips, Warnings::make(alloc)),
        text,
    }
}

/// A run that shows this text on standard output, and nothing else.
pub fn end_with_text(alloc: Global, out: Text) -> Executed
    ensures text { HasTexts out [] result.text }
    ensures run { HasNoTask None [] [] result.run }
{
    let skips = Warnings::make(alloc);
    Executed {
        run: idle_run(alloc, None, skips, Warnings::make(alloc)),
        text: Ok(Printout::of_out(alloc, out)),
    }
}

/// A run whose file is left out.
pub fn end_left_out(alloc: Global, words: &[String], mode: Mode) -> Executed
    requires { mode ≡ mode_in (map string_bytes words.now) }
    ensures text { IsTextOf (map string_bytes words.now) [] result.run result.text }
    ensures run { HasNoTask None [] [] result.run }
{
    let skips = Warnings::make(alloc);
    end_idle(alloc, words, mode, None, skips, Warnings::make(alloc))
}

/// A run whose file is none.
pub fn end_not_a_file(
    alloc: Global,
    words: &[String],
    mode: Mode,
    path: Text,
) -> Result<Executed, OutOfMemory>
    requires { mode ≡ mode_in (map string_bytes words.now) }
    ensures text { IfOk result (λ done. IsTextOf (map string_bytes words.now) [] done.run done.text) }
    ensures run { IfOk result (λ done. HasNoTask None [] (Warning.NotAFile path ∷ []) done.run) }
{
    let mut warnings = list_of(alloc, 1)?;
    warnings.push(Warning::NotAFile(path));
    let skips = Warnings::make(alloc);
    Ok(end_idle(alloc, words, mode, None, skips, warnings))
}

/// A run whose file is skipped.
pub fn end_skipped(
    alloc: Global,
    words: &[String],
    mode: Mode,
    place: Place,
    why: KeySkip,
) -> Result<Executed, OutOfMemory>
    requires mode { mode ≡ mode_in (map string_bytes words.now) }
    requires shown { IsShown (Warning.Skipped place why) }
    ensures text { IfOk result (λ done. IsTextOf (map string_bytes words.now) [] done.run done.text) }
    ensures run { IfOk result (λ done. HasNoTask None (Warning.Skipped place why ∷ []) (Warning.Skipped place why ∷ [])
        done.run) }
{
    let mut skips = list_of(alloc, 1)?;
    let mut warnings = list_of(alloc, 1)?;
    skips.push(Warning::Skipped {
        place: place.copy()?,
        why,
    });
    warnings.push(Warning::Skipped { place, why });
    Ok(end_idle(alloc, words, mode, None, skips, warnings))
}
