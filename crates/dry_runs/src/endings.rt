//! A dry run ends: what it shows.

ghost use Rattle.std.specs.Prelude.{◌≡◌, ◌++◌, [], None, IfOk, map, string_bytes};
ghost use Rattle.std.specs.List.{All, AllByRecursion};
ghost use Rattle.result_lines.specs.Tasks.{HasSource};
ghost use Rattle.result_lines.specs.Warnings.{IsShown};
ghost use Rattle.run_report.specs.Texts.{HasTexts, IsOfLooking, IsTextOf, mode_in, opening_text, out_lines};
ghost use Rattle.dry_runs.specs.Shown.{IsShownPlan, all_dry};

use crate::outcomes::dry_outcomes;
use crate::printed::dry_lines;
use crate::warnings::with_skips;
use run_report::{Executed, Fatal, Printout, Run, end_early, opening_text};
use s3_model::{Journal, Mode, OutOfMemory, Outcomes, Plan, Tasks, Warnings};
use std::alloc::Global;
use std::mem;

/// What a dry run prints.
fn dry_text(
    alloc: Global,
    words: &[String],
    mode: Mode,
    warnings: &Warnings,
    tasks: &Tasks,
) -> Result<Printout, OutOfMemory>
    requires mode { mode ≡ mode_in (map string_bytes words.now) }
    requires shown { All IsShown warnings.now.items }
    requires sources { All HasSource tasks.now.items }
    ensures { HasTexts (out_lines mode tasks.now.items (all_dry tasks.now.items))
        (opening_text (map string_bytes words.now) warnings.now.items None) result }
{
    let err = opening_text(alloc, words, mode, warnings, &None)?;
    match dry_lines(alloc, tasks.as_slice(), mode) {
        Ok(out) => Ok(Printout { out, err }),
        Err(fault) => {
            mem::drop(err);
            Err(fault)
        }
    }
}

/// All warnings of a dry run, and its outcomes.
fn lists_for(
    alloc: Global,
    looked: Warnings,
    plan: &Plan,
) -> Result<(Warnings, Outcomes), OutOfMemory>
    ensures warnings { IfOk result (λ lists. lists.0.items ≡ looked.items ++ plan.now.warnings.items) }
    ensures outcomes { IfOk result (λ lists. lists.1.items ≡ all_dry plan.now.tasks.items) }
{
    let warnings = with_skips(looked, &plan.warnings)?;
    match dry_outcomes(alloc, plan.tasks.as_slice()) {
        Ok(outcomes) => Ok((warnings, outcomes)),
        Err(fault) => {
            mem::drop(warnings);
            Err(fault)
        }
    }
}

/// Ends a dry run: its plan is shown, with the warnings of looking before those of the plan.
pub fn end_dry(
    alloc: Global,
    words: &[String],
    mode: Mode,
    looked: Warnings,
    plan: Plan,
) -> Executed
    requires mode { mode ≡ mode_in (map string_bytes words.now) }
    requires looking { AllByRecursion IsOfLooking looked.items }
    requires skips { All IsShown plan.warnings.items }
    requires sources { All HasSource plan.tasks.items }
    ensures text { IsTextOf (map string_bytes words.now) [] result.run result.text }
    ensures run { IsShownPlan plan looked.items result.run }
{
    match lists_for(alloc, looked, &plan) {
        Ok((warnings, outcomes)) => {
            let text = dry_text(alloc, words, mode, &warnings, &plan.tasks);
            let run = Run {
                status: 0,
                plan,
                outcomes,
                journal: Journal::make(alloc),
                warnings,
                fatal: None,
            };
            Executed { run, text }
        }
        Err(_) => {
            mem::drop(plan);
            end_early(alloc, words, Fatal::Memory)
        }
    }
}
