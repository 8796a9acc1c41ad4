//! The plan of a dry run.

ghost use Rattle.std.specs.Prelude.{◌≡◌, ◌≤◌, IfErr, IfOk};
ghost use Rattle.s3_model.specs.Places.{IsObject};
ghost use Rattle.sync_plan.specs.Errands.{AreEntries, RemovesFrom, TransfersBetween};
ghost use Rattle.sync_plan.specs.Plans.{copies, planned_removals};
ghost use Rattle.tree_walk.specs.Trees.{OnlyLooks};
ghost use Rattle.upload_plans.specs.Commands.{CopiesUp, IsOffline};
ghost use Rattle.run_report.specs.Texts.{HasLine};
ghost use Rattle.dry_runs.specs.Errands.{upload_errand as upload_by};
ghost use Rattle.dry_runs.specs.Found.{files_seen};
ghost use Rattle.dry_runs.specs.Plans.{
  FailsToPlan,
  IsDryPlan,
  IsPlanFatal,
  PlansRemoval,
  PlansUpload,
  ReadsFile,
  RemovesAll,
  StopsDry,
  StopsRemoval,
  StopsUpload,
  TransfersAll,
  plan_fatal,
};

use crate::errands::{removal_entry, removal_errand, upload_errand};
use crate::found::{Found, find_source, only};
use run_report::Fatal;
use s3_model::{Entries, Limits, Place, Plan, PlanFault, Warnings};
use s3_outside::Files;
use s3_words::Command;
use std::alloc::Global;
use std::mem;
use sync_plan::{Errand, plan_copy, plan_remove};
use upload_plans::is_removal;

/// The plan of a command, and what looking at its source warns of.
#[derive(Drop)]
pub struct Planned {
    pub looked: Warnings,
    pub plan: Plan,
}

/// How a refused plan ends a run.
fn plan_fatal(fault: PlanFault) -> Fatal
    ensures fatal { result ≡ plan_fatal fault }
    ensures line { HasLine result }
{
    match fault {
        PlanFault::Memory => Fatal::Memory,
        other => Fatal::Plan(other),
    }
}

/// What a transfer of these entries comes to.
fn plan_transfers(alloc: Global, errand: &Errand, entries: &Entries) -> Result<Plan, Fatal>
    requires places { TransfersBetween errand.now.kind errand.now.from errand.now.to }
    requires entries { AreEntries errand.now.from errand.now.many entries.now.items }
    ensures plan { IfOk result (TransfersAll errand.now entries.now.items) }
    ensures refused { IfErr result (IsPlanFatal errand.now (copies errand.now entries.now.items)) }
    ensures line { IfErr result HasLine }
{
    match plan_copy(alloc, errand, entries) {
        Ok(plan) => Ok(plan),
        Err(fault) => Err(plan_fatal(fault)),
    }
}

/// What a removal of these entries comes to.
fn plan_removals(alloc: Global, errand: &Errand, entries: &Entries) -> Result<Plan, Fatal>
    requires places { RemovesFrom errand.now.kind errand.now.from errand.now.to }
    requires entries { AreEntries errand.now.from errand.now.many entries.now.items }
    ensures plan { IfOk result (RemovesAll errand.now entries.now.items) }
    ensures refused { IfErr result (IsPlanFatal errand.now (planned_removals errand.now entries.now.items)) }
    ensures line { IfErr result HasLine }
{
    match plan_remove(alloc, errand, entries) {
        Ok(plan) => Ok(plan),
        Err(fault) => Err(plan_fatal(fault)),
    }
}

/// What a transfer of what was found comes to.
fn plan_found(alloc: Global, errand: &Errand, found: Found) -> Result<Planned, Fatal>
    requires places { TransfersBetween errand.now.kind errand.now.from errand.now.to }
    requires entries { AreEntries errand.now.from errand.now.many found.entries.items }
    ensures looked { IfOk result (λ planned. planned.looked ≡ found.looked) }
    ensures plan { IfOk result (λ planned. TransfersAll errand.now found.entries.items planned.plan) }
    ensures refused { IfErr result (IsPlanFatal errand.now (copies errand.now found.entries.items)) }
    ensures line { IfErr result HasLine }
{
    let Found { entries, looked } = found;
    match plan_transfers(alloc, errand, &entries) {
        Ok(plan) => {
            mem::drop(entries);
            Ok(Planned { looked, plan })
        }
        Err(fatal) => {
            mem::drop(entries);
            mem::drop(looked);
            Err(fatal)
        }
    }
}

/// What a transfer of local files comes to.
fn plan_errand<F: Files>(alloc: Global, errand: &Errand, files: &mut F) -> Result<Planned, Fatal>
    requires { ReadsFile errand.now }
    ensures plan { IfOk result (λ planned. PlansUpload errand.now (files_seen (F.seen files.old) (F.seen files.new)
        (F.faults files.old) (F.faults files.new)) planned.looked.items planned.plan) }
    ensures refused { IfErr result (FailsToPlan errand.now (files_seen (F.seen files.old) (F.seen files.new)
        (F.faults files.old) (F.faults files.new))) }
    ensures line { IfErr result HasLine }
    ensures kept { OnlyLooks (F.seen files.old) (F.seen files.new) (F.faults files.old) (F.faults files.new) }
    ensures later { F.faults files.old ≤ F.faults files.new }
{
    let Place::File { path } = &errand.from else {
        unreachable!()
    };
    let found = find_source(alloc, files, errand.many, path.as_str())?;
    plan_found(alloc, errand, found)
}

/// What `cp` or `mv` of local files comes to.
fn plan_upload<F: Files>(
    alloc: Global,
    command: Command,
    limits: Limits,
    files: &mut F,
) -> Result<Planned, Fatal>
    requires { CopiesUp command }
    ensures plan { IfOk result (λ planned. PlansUpload (upload_by command limits) (files_seen (F.seen files.old)
        (F.seen files.new) (F.faults files.old) (F.faults files.new)) planned.looked.items planned.plan) }
    ensures refused { IfErr result (StopsUpload command limits (files_seen (F.seen files.old) (F.seen files.new)
        (F.faults files.old) (F.faults files.new))) }
    ensures line { IfErr result HasLine }
    ensures kept { OnlyLooks (F.seen files.old) (F.seen files.new) (F.faults files.old) (F.faults files.new) }
    ensures later { F.faults files.old ≤ F.faults files.new }
{
    let errand = upload_errand(alloc, command, limits)?;
    let planned = plan_errand(alloc, &errand, files);
    mem::drop(errand);
    planned
}

/// What `rm` of one object comes to.
fn plan_removal(alloc: Global, command: Command, limits: Limits) -> Result<Planned, Fatal>
    requires { IsObject command.from }
    ensures plan { IfOk result (λ planned. PlansRemoval command limits planned.looked.items planned.plan) }
    ensures refused { IfErr result (StopsRemoval command limits) }
    ensures line { IfErr result HasLine }
{
    let entry = removal_entry(alloc, &command)?;
    let entries = only(alloc, entry)?;
    let errand = removal_errand(command, limits);
    let plan = plan_removals(alloc, &errand, &entries);
    mem::drop(errand);
    mem::drop(entries);
    match plan {
        Ok(plan) => Ok(Planned {
            looked: Warnings::make(alloc),
            plan,
        }),
        Err(fatal) => Err(fatal),
    }
}

/// The plan of a dry run that asks nothing of a service: of `cp` or `mv` from local files, or of `rm` for one object.
///
/// The files are only looked at: what stands at the source, and under `--recursive` the tree below it. Without
/// `--recursive` a folder is refused (`IsFolder`), with it all else (`NotFolder`), and in both cases what is absent
/// (`NoSource`). What is neither file nor folder is a warning. The rest is as for [`plan_copy`] and [`plan_remove`].
pub fn plan_here<F: Files>(
    alloc: Global,
    command: Command,
    limits: Limits,
    files: &mut F,
) -> Result<Planned, Fatal>
    requires { IsOffline command }
    ensures plan { IfOk result (λ planned. IsDryPlan command limits (files_seen (F.seen files.old) (F.seen files.new)
        (F.faults files.old) (F.faults files.new)) planned.looked.items planned.plan) }
    ensures refused { IfErr result (StopsDry command limits (files_seen (F.seen files.old) (F.seen files.new)
        (F.faults files.old) (F.faults files.new))) }
    ensures line { IfErr result HasLine }
    ensures kept { OnlyLooks (F.seen files.old) (F.seen files.new) (F.faults files.old) (F.faults files.new) }
    ensures later { F.faults files.old ≤ F.faults files.new }
{
    if is_removal(command.verb) {
        plan_removal(alloc, command, limits)
    } else {
        plan_upload(alloc, command, limits, files)
    }
}
