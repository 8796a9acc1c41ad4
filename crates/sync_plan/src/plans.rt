//! The plans of a command.

ghost use Rattle.std.specs.Prelude.{◌≡◌, ◌≢◌, [], IfErr, IfOk, false, true};
ghost use Rattle.sync_plan.specs.Errands.{AreEntries, AreEntriesAt, RemovesFrom, TransfersBetween, is_one_bucket};
ghost use Rattle.sync_plan.specs.Fit.{IsFit, IsRefused};
ghost use Rattle.sync_plan.specs.Plans.{copies, planned_removals, synced, tasks_for, warnings_for};

use crate::draft::{draft, removals};
use crate::errand::Errand;
use crate::judge::judge;
use crate::tasks::Route;
use s3_model::{Entries, Entry, Place, Plan, PlanFault, Warnings};
use std::alloc::Global;

fn is_one_bucket(from: &Place, to: &Place) -> bool
    ensures { result ≡ is_one_bucket from.now to.now }
{
    match (from, to) {
        (Place::Object { bucket, .. }, Place::Object { bucket: other, .. }) => {
            bucket.as_str() == other.as_str()
        }
        _ => false,
    }
}

fn plan_transfers(
    alloc: Global,
    errand: &Errand,
    many: bool,
    source: &[Entry],
    dest: &[Entry],
) -> Result<Plan, PlanFault>
    requires places { TransfersBetween errand.now.kind errand.now.from errand.now.to }
    requires source { AreEntries errand.now.from many source.now }
    requires dest { AreEntriesAt errand.now.to many dest.now }
    requires single { many ≡ false → dest.now ≡ [] }
    ensures tasks { IfOk result (λ plan. plan.tasks.items
        ≡ tasks_for errand.now errand.now.to many source.now dest.now) }
    ensures warnings { IfOk result (λ plan. plan.warnings.items
        ≡ warnings_for errand.now errand.now.to many source.now) }
    ensures fit { IfOk result (λ plan. IsFit errand.now.limits.max_object plan.tasks.items) }
    ensures refused { IfErr result (λ fault. fault ≢ PlanFault.Memory → IsRefused errand.now.limits.max_object
        (tasks_for errand.now errand.now.to many source.now dest.now) fault) }
{
    let Some(to) = &errand.to else { unreachable!() };
    let route = Route { errand, to, many };
    let Ok(plan) = draft(alloc, &route, source, dest) else {
        return Err(PlanFault::Memory);
    };
    let one_bucket = is_one_bucket(&errand.from, to);
    judge(
        alloc,
        errand.limits.max_object,
        one_bucket,
        plan.tasks.as_slice(),
    )?;
    Ok(plan)
}

/// What `cp` and `mv` are to transfer: each name of the source that the filters keep.
///
/// Where there are not many names, the source is the one entry, and a destination that is a bucket's whole, a prefix or
/// a folder gets its base name. Folder markers are left out. A name that no key or file must get is a warning.
///
/// The first transfer of more than `max_object` bytes is refused (`TooLarge`), else the least key that is both read and
/// written (`Overlap`), else more than 1,000,000 tasks (`TooMany`).
pub fn plan_copy(alloc: Global, errand: &Errand, source: &Entries) -> Result<Plan, PlanFault>
    requires places { TransfersBetween errand.now.kind errand.now.from errand.now.to }
    requires source { AreEntries errand.now.from errand.now.many source.now.items }
    ensures tasks { IfOk result (λ plan. plan.tasks.items ≡ copies errand.now source.now.items) }
    ensures warnings { IfOk result (λ plan. plan.warnings.items
        ≡ warnings_for errand.now errand.now.to errand.now.many source.now.items) }
    ensures fit { IfOk result (λ plan. IsFit errand.now.limits.max_object plan.tasks.items) }
    ensures refused { IfErr result (λ fault. fault ≢ PlanFault.Memory → IsRefused errand.now.limits.max_object
        (copies errand.now source.now.items) fault) }
{
    plan_transfers(alloc, errand, errand.many, source.as_slice(), &[])
}

/// What `sync` is to transfer and, where `remove_extra` is set, to remove. Both lists are gone over once.
///
/// A name that is missing at the destination is transferred, and one that differs there ([`crate::differs`]). A name
/// that stands at the destination alone is removed. Names that a filter leaves out are neither. The rest is as for
/// [`plan_copy`].
pub fn plan_sync(
    alloc: Global,
    errand: &Errand,
    source: &Entries,
    dest: &Entries,
) -> Result<Plan, PlanFault>
    requires places { TransfersBetween errand.now.kind errand.now.from errand.now.to }
    requires source { AreEntries errand.now.from true source.now.items }
    requires dest { AreEntriesAt errand.now.to true dest.now.items }
    ensures tasks { IfOk result (λ plan. plan.tasks.items ≡ synced errand.now source.now.items dest.now.items) }
    ensures warnings { IfOk result (λ plan. plan.warnings.items
        ≡ warnings_for errand.now errand.now.to true source.now.items) }
    ensures fit { IfOk result (λ plan. IsFit errand.now.limits.max_object plan.tasks.items) }
    ensures refused { IfErr result (λ fault. fault ≢ PlanFault.Memory → IsRefused errand.now.limits.max_object
        (synced errand.now source.now.items dest.now.items) fault) }
{
    plan_transfers(alloc, errand, true, source.as_slice(), dest.as_slice())
}

/// What `rm` is to remove: each name that the filters keep, folder markers too. More than 1,000,000 tasks are refused
/// (`TooMany`).
pub fn plan_remove(alloc: Global, errand: &Errand, source: &Entries) -> Result<Plan, PlanFault>
    requires places { RemovesFrom errand.now.kind errand.now.from errand.now.to }
    requires source { AreEntries errand.now.from errand.now.many source.now.items }
    ensures tasks { IfOk result (λ plan. plan.tasks.items ≡ planned_removals errand.now source.now.items) }
    ensures warnings { IfOk result (λ plan. plan.warnings.items ≡ []) }
    ensures fit { IfOk result (λ plan. IsFit errand.now.limits.max_object plan.tasks.items) }
    ensures refused { IfErr result (λ fault. fault ≢ PlanFault.Memory → IsRefused errand.now.limits.max_object
        (planned_removals errand.now source.now.items) fault) }
{
    let Ok(tasks) = removals(alloc, errand, source.as_slice()) else {
        return Err(PlanFault::Memory);
    };
    judge(alloc, errand.limits.max_object, false, tasks.as_slice())?;
    Ok(Plan {
        tasks,
        warnings: Warnings::make(alloc),
    })
}
