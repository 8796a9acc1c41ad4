//! A dry run ends: what it shows.

ghost use Rattle.std.specs.Prelude.{◌≡◌, ◌++◌, [], None, IfOk, Ok, map, string_bytes};
ghost use Rattle.std.specs.List.{All};
ghost use Rattle.dry_runs.specs.Shown.{all_dry};
ghost use Rattle.result_lines.specs.Tasks.{HasSource};
ghost use Rattle.result_lines.specs.Warnings.{IsShown};
ghost use Rattle.run_report.specs.Texts.{HasLine, HasTexts, IsTextOf, mode_in, opening_text, out_lines};
ghost use Rattle.service_dry_runs.specs.Endings.{CanEnd, EndsBy, EndsEarly, IsShowable};

use crate::fatal::fatal_for;
use crate::shown::{dry_lines, dry_outcomes};
use crate::warnings::with_skips;
use run_report::{Executed, Fatal, Printout, Run, ending_text, opening_text};
use s3_model::{Journal, Mode, OutOfMemory, Outcomes, Plan, Tasks, Warnings};
use service_plans::{Halted, Planned};
use std::alloc::Global;
use std::mem;

/// A run without a plan, with these jobs.
fn early_run(alloc: Global, fatal: Fatal, journal: Journal) -> Run
    ensures early { EndsEarly fatal result }
    ensures journal { result.journal ≡ journal }
{
    Run {
        status: 0,
        plan: Plan {
            tasks: Tasks::make(alloc),
            warnings: Warnings::make(alloc),
        },
        outcomes: Outcomes::make(alloc),
        journal,
        warnings: Warnings::make(alloc),
        fatal: Some(fatal),
    }
}

/// Ends a run without a plan.
fn end_early(alloc: Global, words: &[String], fatal: Fatal, journal: Journal) -> Executed
    requires { HasLine fatal }
    ensures text { IsTextOf (map string_bytes words.now) [] result.run result.text }
    ensures early { EndsEarly fatal result.run }
    ensures journal { result.run.journal ≡ journal }
{
    let text = ending_text(alloc, words, &fatal);
    Executed {
        run: early_run(alloc, fatal, journal),
        text,
    }
}

/// What a dry run prints.
fn dry_text(
    alloc: Global,
    words: &[String],
    mode: Mode,
    warnings: &Warnings,
    tasks: &Tasks,
) -> Result<Printout, OutOfMemory>
    requires mode { mode ≡ mode_in (map string_bytes words.now) }
    requires shown { All IsShown warnings.now.items }
    requires sources { All HasSource tasks.now.items }
    ensures { HasTexts (out_lines mode tasks.now.items (all_dry tasks.now.items))
        (opening_text (map string_bytes words.now) warnings.now.items None) result }
{
    let err = opening_text(alloc, words, mode, warnings, &None)?;
    match dry_lines(alloc, tasks.as_slice(), mode) {
        Ok(out) => Ok(Printout { out, err }),
        Err(fault) => {
            mem::drop(err);
            Err(fault)
        }
    }
}

/// All warnings of a dry run, and its outcomes.
fn lists_for(
    alloc: Global,
    looked: Warnings,
    plan: &Plan,
) -> Result<(Warnings, Outcomes), OutOfMemory>
    ensures warnings { IfOk result (λ lists. lists.0.items ≡ looked.items ++ plan.now.warnings.items) }
    ensures outcomes { IfOk result (λ lists. lists.1.items ≡ all_dry plan.now.tasks.items) }
{
    let warnings = with_skips(looked, &plan.warnings)?;
    match dry_outcomes(alloc, plan.tasks.as_slice()) {
        Ok(outcomes) => Ok((warnings, outcomes)),
        Err(fault) => {
            mem::drop(warnings);
            Err(fault)
        }
    }
}

/// Ends a run whose plan is shown, with the warnings of looking before those of the plan.
fn end_shown(
    alloc: Global,
    words: &[String],
    mode: Mode,
    planned: Planned,
    journal: Journal,
) -> Executed
    requires mode { mode ≡ mode_in (map string_bytes words.now) }
    requires showable { IsShowable planned }
    ensures text { IsTextOf (map string_bytes words.now) [] result.run result.text }
    ensures ends { EndsBy (Ok planned) result.run }
    ensures journal { result.run.journal ≡ journal }
{
    let Planned { plan, looked } = planned;
    match lists_for(alloc, looked, &plan) {
        Ok((warnings, outcomes)) => {
            let text = dry_text(alloc, words, mode, &warnings, &plan.tasks);
            let run = Run {
                status: 0,
                plan,
                outcomes,
                journal,
                warnings,
                fatal: None,
            };
            Executed { run, text }
        }
        Err(_) => {
            mem::drop(plan);
            end_early(alloc, words, Fatal::Memory, journal)
        }
    }
}

/// Ends a run that planned, with the jobs of its planning.
pub(crate) fn end_planned(
    alloc: Global,
    words: &[String],
    mode: Mode,
    planned: Result<Planned, Halted>,
    journal: Journal,
) -> Executed
    requires mode { mode ≡ mode_in (map string_bytes words.now) }
    requires can_end { CanEnd planned }
    ensures text { IsTextOf (map string_bytes words.now) [] result.run result.text }
    ensures ends { EndsBy planned result.run }
    ensures journal { result.run.journal ≡ journal }
{
    match planned {
        Ok(planned) => end_shown(alloc, words, mode, planned, journal),
        Err(why) => end_early(alloc, words, fatal_for(why), journal),
    }
}
