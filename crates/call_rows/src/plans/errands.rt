//! Errands, and their plans.

ghost use Rattle.std.specs.Prelude.{◌≡◌, IfSome, Some, None};
ghost use Rattle.call_rows.specs.Sides.{IsListedAt, IsListedBy};
ghost use Rattle.sync_plan.specs.Errands.{RemovesFrom, TransfersBetween};

use crate::leaves::patterns::filters_of;
use crate::lines::text_of;
use crate::plans::sides::{pages_at, pages_of, place_of};
use crate::plans::words::Words;
use list_walk::Pages;
use path_filters::Filters;
use s3_model::{Kind, Limits, Place, Plan, PlanFault, Text, Times};
use std::alloc::Global;
use std::mem;
use sync_plan::{Errand, plan_copy, plan_remove, plan_sync};

fn limits_of(flags: &str) -> Limits {
    Limits {
        min_part: 1,
        max_part: 8,
        max_parts: 1,
        max_object: if flags.contains('s') {
            1_099_511_627_776
        } else {
            8
        },
    }
}

fn times_of(word: &str) -> Times {
    match word {
        "size" => Times::SizeOnly,
        "exact" => Times::Exact,
        _ => Times::Usual,
    }
}

fn transfer_kind(from: &Place, to: &Place) -> Option<Kind>
    ensures { IfSome result (λ kind. TransfersBetween kind from.now (Some to.now)) }
{
    match from {
        Place::File { .. } => match to {
            Place::Object { .. } => Some(Kind::Upload),
            Place::File { .. } => None,
        },
        Place::Object { .. } => match to {
            Place::Object { .. } => Some(Kind::Copy),
            Place::File { .. } => Some(Kind::Download),
        },
    }
}

fn removal_kind(from: &Place) -> Kind
    ensures { RemovesFrom result from.now None }
{
    match from {
        Place::Object { .. } => Kind::RemoveObject,
        Place::File { .. } => Kind::RemoveFile,
    }
}

/// What a line says of its names and of their content.
#[derive(Drop)]
struct Wish {
    filters: Filters,
    content: Option<Text>,
}

fn content_of(alloc: Global, flags: &str) -> Option<Text> {
    if flags.contains('c') {
        Some(text_of(alloc, "text/x"))
    } else {
        None
    }
}

fn wish_of(alloc: Global, words: &Words<'_>) -> Wish {
    Wish {
        filters: filters_of(alloc, words.filters).unwrap_or(Filters::make(alloc)),
        content: content_of(alloc, words.flags),
    }
}

fn errand_of(words: &Words<'_>, kind: Kind, from: Place, to: Option<Place>, wish: Wish) -> Errand
    ensures { (result.kind ≡ kind) × (result.from ≡ from) × (result.to ≡ to) }
{
    Errand {
        kind,
        moves: words.flags.contains('v'),
        from,
        to,
        many: words.flags.contains('m'),
        times: times_of(words.times),
        remove_extra: words.flags.contains('d'),
        content: wish.content,
        guess: words.flags.contains('g'),
        fresh: words.flags.contains('f'),
        filters: wish.filters,
        limits: limits_of(words.flags),
    }
}

fn transfer_of(alloc: Global, words: &Words<'_>) -> Option<Errand>
    ensures { IfSome result (λ errand. TransfersBetween errand.kind errand.from errand.to) }
{
    let from = place_of(alloc, words.from);
    let to = place_of(alloc, words.to);
    match transfer_kind(&from, &to) {
        Some(kind) => Some(errand_of(words, kind, from, Some(to), wish_of(alloc, words))),
        None => {
            mem::drop(from);
            mem::drop(to);
            None
        }
    }
}

fn removal_of(alloc: Global, words: &Words<'_>) -> Errand
    ensures { RemovesFrom result.kind result.from result.to }
{
    let from = place_of(alloc, words.from);
    errand_of(
        words,
        removal_kind(&from),
        from,
        None,
        wish_of(alloc, words),
    )
}

fn synced(alloc: Global, errand: &Errand, source: &Pages, dest: &Pages) -> Result<Plan, PlanFault>
    requires places { TransfersBetween errand.now.kind errand.now.from errand.now.to }
    requires source { IsListedBy errand.now.from source.now.prefix }
    requires dest { IsListedAt errand.now.to dest.now.prefix }
{
    plan_sync(alloc, errand, source.entries(), dest.entries())
}

fn copied(alloc: Global, errand: &Errand, source: &Pages) -> Option<Result<Plan, PlanFault>>
    requires places { TransfersBetween errand.now.kind errand.now.from errand.now.to }
    requires source { IsListedBy errand.now.from source.now.prefix }
{
    let entries = source.entries();
    if !errand.many && entries.len() > 1 {
        return None;
    }
    Some(plan_copy(alloc, errand, entries))
}

fn removed(alloc: Global, errand: &Errand, source: &Pages) -> Option<Result<Plan, PlanFault>>
    requires places { RemovesFrom errand.now.kind errand.now.from errand.now.to }
    requires source { IsListedBy errand.now.from source.now.prefix }
{
    let entries = source.entries();
    if !errand.many && entries.len() > 1 {
        return None;
    }
    Some(plan_remove(alloc, errand, entries))
}

fn transferred(
    alloc: Global,
    call: &str,
    errand: &Errand,
    source: &Pages,
    dest: &Pages,
) -> Option<Result<Plan, PlanFault>>
    requires places { TransfersBetween errand.now.kind errand.now.from errand.now.to }
    requires source { IsListedBy errand.now.from source.now.prefix }
    requires dest { IsListedAt errand.now.to dest.now.prefix }
{
    match call {
        "sync" => Some(synced(alloc, errand, source, dest)),
        "copy" => copied(alloc, errand, source),
        _ => None,
    }
}

fn planned_from(
    alloc: Global,
    words: &Words<'_>,
    errand: &Errand,
    source: &Pages,
) -> Option<Result<Plan, PlanFault>>
    requires places { TransfersBetween errand.now.kind errand.now.from errand.now.to }
    requires source { IsListedBy errand.now.from source.now.prefix }
{
    let dest = pages_at(alloc, &errand.to, words.dest)?;
    let planned = transferred(alloc, words.call, errand, source, &dest);
    mem::drop(dest);
    planned
}

fn planned_by(alloc: Global, words: &Words<'_>, errand: &Errand) -> Option<Result<Plan, PlanFault>>
    requires places { TransfersBetween errand.now.kind errand.now.from errand.now.to }
{
    let source = pages_of(alloc, &errand.from, words.source)?;
    let planned = planned_from(alloc, words, errand, &source);
    mem::drop(source);
    planned
}

fn transfer_planned(alloc: Global, words: &Words<'_>) -> Option<Result<Plan, PlanFault>> {
    let errand = transfer_of(alloc, words)?;
    let planned = planned_by(alloc, words, &errand);
    mem::drop(errand);
    planned
}

fn removed_by(alloc: Global, words: &Words<'_>, errand: &Errand) -> Option<Result<Plan, PlanFault>>
    requires places { RemovesFrom errand.now.kind errand.now.from errand.now.to }
{
    let source = pages_of(alloc, &errand.from, words.source)?;
    let planned = removed(alloc, errand, &source);
    mem::drop(source);
    planned
}

fn removal_planned(alloc: Global, words: &Words<'_>) -> Option<Result<Plan, PlanFault>> {
    let errand = removal_of(alloc, words);
    let planned = removed_by(alloc, words, &errand);
    mem::drop(errand);
    planned
}

/// The plan of a line, or None where it has no errand, or memory ran out.
pub(crate) fn planned(alloc: Global, words: &Words<'_>) -> Option<Result<Plan, PlanFault>> {
    if words.call == "remove" {
        removal_planned(alloc, words)
    } else {
        transfer_planned(alloc, words)
    }
}
