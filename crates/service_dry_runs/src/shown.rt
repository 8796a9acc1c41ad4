//! What a dry run prints of its tasks, and their outcomes.

ghost use Rattle.std.specs.Prelude.{◌≡◌, ◌++◌, IfOk, OnOk, flat_map, string_bytes};
ghost use Rattle.std.specs.List.{All};
ghost use Rattle.result_lines.specs.Tasks.{HasSource};
ghost use Rattle.run_report.specs.Texts.{out_lines};
ghost use Rattle.dry_runs.specs.Shown.{all_dry, dry_line};

use run_report::task_text;
use s3_model::{Mode, OutOfMemory, Outcome, Outcomes, Task, Text, Warnings};
use std::alloc::Global;

/// Dry, for each task.
pub(crate) fn dry_outcomes(alloc: Global, tasks: &[Task]) -> Result<Outcomes, OutOfMemory>
    ensures { IfOk result (λ outcomes. outcomes.items ≡ all_dry tasks.now) }
{
    let mut outcomes = Outcomes::make(alloc);
    for _task in tasks {
        outcomes.reserve(1)?;
        outcomes.push(Outcome::Dry);
    }
    Ok(outcomes)
}

/// Adds the line of a task that is only shown.
fn add_line(alloc: Global, text: &mut String, task: &Task, mode: Mode) -> Result<(), OutOfMemory>
    requires { HasSource task.now }
    ensures { OnOk result (string_bytes text.new ≡ string_bytes text.old ++ dry_line mode task.now) }
{
    let own = Warnings::make(alloc);
    let said = task_text(alloc, task, &Outcome::Dry, &own, mode)?;
    text.push_str(said.out.as_str())?;
    Ok(())
}

/// Adds the lines of tasks that are only shown.
fn add_lines(
    alloc: Global,
    text: &mut String,
    tasks: &[Task],
    mode: Mode,
) -> Result<(), OutOfMemory>
    requires { All HasSource tasks.now }
    ensures { OnOk result (string_bytes text.new ≡ string_bytes text.old ++ flat_map (dry_line mode) tasks.now) }
{
    for task in tasks {
        add_line(alloc, text, task, mode)?;
    }
    Ok(())
}

/// The lines of tasks that are only shown.
#[tactic(auto, using(dry_runs::proofs::LineLemmas::lines_are))]
pub(crate) fn dry_lines(alloc: Global, tasks: &[Task], mode: Mode) -> Result<Text, OutOfMemory>
    requires { All HasSource tasks.now }
    ensures { IfOk result (λ text. text ≡ out_lines mode tasks.now (all_dry tasks.now)) }
{
    let mut text = String::new(alloc);
    add_lines(alloc, &mut text, tasks, mode)?;
    Ok(Text::from(text))
}
