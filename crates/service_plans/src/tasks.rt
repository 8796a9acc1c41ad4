//! The plan of a command, by the entries of its two sides.

ghost use Rattle.std.specs.Prelude.{◌≡◌, ◌≢◌, true, IfErr, IfOk, IfSome, option_map};
ghost use Rattle.command_errands.specs.Errands.{TakesPlaces, is_many, removes, source_of, without_errand};
ghost use Rattle.s3_words.specs.Options.{changes, is_sync, transfers};
ghost use Rattle.sync_plan.specs.Errands.{AreEntries, AreEntriesAt, RemovesFrom, TransfersBetween};
ghost use Rattle.sync_plan.specs.Fit.{IsRefused};
ghost use Rattle.service_plans.specs.Plans.{ComesTo, IsPlanOf, RefusesPlan, tasks_by};
ghost use Rattle.service_plans.specs.Sides.{entries_in};

use crate::dests::Dest;
use crate::found::Found;
use crate::halted::{Halted, plan_halted};
use command_errands::take_errand;
use s3_model::{Entries, Limits, Plan, PlanFault};
use s3_words::{Command, Verb};
use std::alloc::Global;
use std::mem;
use sync_plan::{Errand, plan_copy, plan_remove, plan_sync};

/// The plan of an errand, or why it is refused.
fn plan_by(
    alloc: Global,
    verb: Verb,
    errand: &Errand,
    source: &Entries,
    dest: &Entries,
) -> Result<Plan, PlanFault>
    requires verb { changes verb ≡ true }
    requires transfers { transfers verb ≡ true → TransfersBetween errand.now.kind errand.now.from errand.now.to }
    requires removes { removes verb ≡ true → RemovesFrom errand.now.kind errand.now.from errand.now.to }
    requires source { AreEntries errand.now.from errand.now.many source.now.items }
    requires many { is_sync verb ≡ true → errand.now.many ≡ true }
    requires dest { is_sync verb ≡ true → AreEntriesAt errand.now.to true dest.now.items }
    ensures plan { IfOk result (IsPlanOf verb errand.now source.now.items dest.now.items) }
    ensures refused { IfErr result (λ fault. fault ≢ PlanFault.Memory → IsRefused errand.now.limits.max_object
        (tasks_by verb errand.now source.now.items dest.now.items) fault) }
{
    match verb {
        Verb::Sync => plan_sync(alloc, errand, source, dest),
        Verb::Rm => plan_remove(alloc, errand, source),
        _ => plan_copy(alloc, errand, source),
    }
}

/// The plan of an errand.
#[tactic(auto, using(crate::proofs::PlanLemmas::refuses))]
fn plan_errand(
    alloc: Global,
    verb: Verb,
    errand: &Errand,
    source: &Entries,
    dest: &Entries,
) -> Result<Plan, Halted>
    requires verb { changes verb ≡ true }
    requires transfers { transfers verb ≡ true → TransfersBetween errand.now.kind errand.now.from errand.now.to }
    requires removes { removes verb ≡ true → RemovesFrom errand.now.kind errand.now.from errand.now.to }
    requires source { AreEntries errand.now.from errand.now.many source.now.items }
    requires many { is_sync verb ≡ true → errand.now.many ≡ true }
    requires dest { is_sync verb ≡ true → AreEntriesAt errand.now.to true dest.now.items }
    ensures plan { IfOk result (IsPlanOf verb errand.now source.now.items dest.now.items) }
    ensures refused { IfErr result (RefusesPlan verb errand.now source.now.items dest.now.items) }
{
    match plan_by(alloc, verb, errand, source, dest) {
        Ok(plan) => Ok(plan),
        Err(fault) => Err(plan_halted(fault)),
    }
}

/// The plan of a command, by the entries of its two sides.
#[tactic(auto, using(crate::proofs::PlanLemmas::comes_to))]
pub(crate) fn plan_sides(
    alloc: Global,
    command: &mut Command,
    limits: &Limits,
    source: &Found,
    dest: &Dest,
) -> Result<Plan, Halted>
    requires places { TakesPlaces command.old.verb command.old.from command.old.to }
    requires source { IfSome command.old.from (λ from. AreEntries (source_of (is_many command.old) from)
        (is_many command.old) (entries_in source.now.side)) }
    requires dest { AreEntriesAt (option_map (source_of true) command.old.to) true (entries_in dest.now.found.side) }
    ensures comes { ComesTo command.old limits.now source.now dest.now result }
    ensures rest { command.new ≡ without_errand command.old }
{
    let errand = take_errand(alloc, command, limits, dest.into_folder)?;
    let planned = plan_errand(
        alloc,
        command.verb,
        &errand,
        source.side.entries(),
        dest.found.side.entries(),
    );
    mem::drop(errand);
    planned
}
