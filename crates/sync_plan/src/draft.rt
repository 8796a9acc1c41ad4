//! The tasks and warnings of two sides, before they are judged.

ghost use Rattle.std.specs.Prelude.{◌≡◌, ◌++◌, ◌∷◌, [], IfOk, OnOk, Some, None, option_copied};
ghost use Rattle.std.specs.Option.{option_to_list};
ghost use Rattle.merged_names.specs.Merging.{Ascend};
ghost use Rattle.sync_plan.specs.Errands.{names_of, relative, source_at};
ghost use Rattle.sync_plan.specs.Plans.{
  planned,
  planned_removals,
  removal_of,
  skipped,
  task_at,
  transfer_of,
  warning_at,
  warning_of,
};

use crate::errand::Errand;
use crate::names::relative;
use crate::places::{skip_of, source_at};
use crate::tasks::{Route, is_due, is_kept, removal, transfer};
use crate::turns::{Turn, next_turn};
use s3_model::{Entry, KeySkip, OutOfMemory, Plan, Tasks, Warning, Warnings};
use std::alloc::Global;

fn skip(
    alloc: Global,
    route: &Route<'_>,
    path: &str,
    why: KeySkip,
    warnings: &mut Warnings,
) -> Result<(), OutOfMemory>
    ensures { OnOk result (warnings.new.items ≡ warnings.old.items
        ++ Warning.Skipped (source_at route.now.errand.now.from route.now.many path.now) why ∷ []) }
{
    warnings.reserve(1)?;
    let place = source_at(alloc, &route.errand.from, route.many, path)?;
    warnings.push(Warning::Skipped { place, why });
    Ok(())
}

fn add_transfer(
    alloc: Global,
    route: &Route<'_>,
    path: &str,
    entry: &Entry,
    other: Option<&Entry>,
    plan: &mut Plan,
) -> Result<(), OutOfMemory>
    ensures tasks { OnOk result (plan.new.tasks.items ≡ plan.old.tasks.items
        ++ option_to_list (transfer_of route.now.errand.now route.now.to.now route.now.many (path.now, entry.now)
        (option_copied other.entry))) }
    ensures warnings { OnOk result (plan.new.warnings.items ≡ plan.old.warnings.items
        ++ option_to_list (warning_of route.now.errand.now route.now.to.now route.now.many (path.now, entry.now))) }
{
    if !is_kept(route.errand, path) {
        return Ok(());
    }
    if let Some(why) = skip_of(route.to, route.many, path) {
        return skip(alloc, route, path, why, &mut plan.warnings);
    }
    if !is_due(route.errand, entry, other) {
        return Ok(());
    }
    plan.tasks.reserve(1)?;
    let task = transfer(alloc, route, path, entry)?;
    plan.tasks.push(task);
    Ok(())
}

fn add_removal(
    alloc: Global,
    route: &Route<'_>,
    path: &str,
    entry: &Entry,
    tasks: &mut Tasks,
) -> Result<(), OutOfMemory>
    ensures { OnOk result (tasks.new.items ≡ tasks.old.items
        ++ option_to_list (removal_of route.now.errand.now route.now.to.now (path.now, entry.now) None)) }
{
    if !route.errand.remove_extra || !is_kept(route.errand, path) {
        return Ok(());
    }
    tasks.reserve(1)?;
    let task = removal(alloc, route.to, true, path, entry)?;
    tasks.push(task);
    Ok(())
}

/// Adds what one path comes to.
fn add(
    alloc: Global,
    route: &Route<'_>,
    turn: &Turn<'_>,
    plan: &mut Plan,
) -> Result<(), OutOfMemory>
    ensures tasks { OnOk result (plan.new.tasks.items ≡ plan.old.tasks.items
        ++ option_to_list (task_at route.now.errand.now route.now.to.now route.now.many turn.now.path.now
        (option_copied turn.now.ours) (option_copied turn.now.theirs))) }
    ensures warnings { OnOk result (plan.new.warnings.items ≡ plan.old.warnings.items
        ++ option_to_list (warning_at route.now.errand.now route.now.to.now route.now.many turn.now.path.now
        (option_copied turn.now.ours))) }
{
    match (turn.ours, turn.theirs) {
        (Some(entry), other) => add_transfer(alloc, route, turn.path, entry, other, plan),
        (None, Some(entry)) => add_removal(alloc, route, turn.path, entry, &mut plan.tasks),
        (None, None) => Ok(()),
    }
}

/// Goes over both sides once, each in byte order.
pub(crate) fn draft(
    alloc: Global,
    route: &Route<'_>,
    source: &[Entry],
    dest: &[Entry],
) -> Result<Plan, OutOfMemory>
    requires source { Ascend (names_of route.now.errand.now.from route.now.many source.now) }
    requires dest { Ascend (names_of route.now.to.now route.now.many dest.now) }
    ensures tasks { IfOk result (λ plan. plan.tasks.items
        ≡ planned route.now.errand.now route.now.to.now route.now.many source.now dest.now) }
    ensures warnings { IfOk result (λ plan. plan.warnings.items
        ≡ skipped route.now.errand.now route.now.to.now route.now.many source.now) }
{
    let mut plan = Plan {
        tasks: Tasks::make(alloc),
        warnings: Warnings::make(alloc),
    };
    let mut ours = source;
    let mut theirs = dest;
    while let Some(turn) = next_turn(&route.errand.from, route.to, route.many, ours, theirs) {
        add(alloc, route, &turn, &mut plan)?;
        ours = turn.source;
        theirs = turn.dest;
    }
    Ok(plan)
}

fn add_removed(
    alloc: Global,
    errand: &Errand,
    entry: &Entry,
    tasks: &mut Tasks,
) -> Result<(), OutOfMemory>
    ensures { OnOk result (tasks.new.items ≡ tasks.old.items ++ planned_removals errand.now (entry.now ∷ [])) }
{
    let path = relative(&errand.from, errand.many, entry);
    if !is_kept(errand, path) {
        return Ok(());
    }
    tasks.reserve(1)?;
    let task = removal(alloc, &errand.from, errand.many, path, entry)?;
    tasks.push(task);
    Ok(())
}

/// The removals of all entries that the filters keep.
pub(crate) fn removals(
    alloc: Global,
    errand: &Errand,
    entries: &[Entry],
) -> Result<Tasks, OutOfMemory>
    ensures { IfOk result (λ tasks. tasks.items ≡ planned_removals errand.now entries.now) }
{
    let mut tasks = Tasks::make(alloc);
    for entry in entries {
        add_removed(alloc, errand, entry, &mut tasks)?;
    }
    Ok(tasks)
}
