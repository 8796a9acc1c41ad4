//! The task of one name.

ghost use Rattle.std.specs.Prelude.{◌≡◌, IfOk, Some, option_copied};
ghost use Rattle.path_filters.specs.Filters.{is_kept};
ghost use Rattle.s3_model.specs.ContentTypes.{content_type_of};
ghost use Rattle.sync_plan.specs.Errands.{dest_at, source_at};
ghost use Rattle.sync_plan.specs.Plans.{
  content_by,
  content_for,
  is_due,
  is_kept_by,
  removal_kind,
  removal_task,
  transfer_task,
};

use crate::errand::Errand;
use crate::places::{dest_at, source_at};
use crate::times::differs;
use s3_model::{Entry, Kind, OutOfMemory, Place, Task, Text, content_of};
use std::alloc::Global;

/// An errand with its destination; `many` says whether names are joined to the two places.
#[derive(Clone, Copy)]
pub(crate) struct Route<'a> {
    pub errand: &'a Errand,
    pub to: &'a Place,
    pub many: bool,
}

pub(crate) fn is_kept(errand: &Errand, path: &str) -> bool
    ensures { result ≡ is_kept_by errand.now path.now }
{
    errand.filters.keeps(path)
}

pub(crate) fn is_due(errand: &Errand, entry: &Entry, other: Option<&Entry>) -> bool
    ensures { result ≡ is_due errand.now entry.now (option_copied other.entry) }
{
    match other {
        Some(other) => differs(entry, other, errand.kind, errand.times),
        None => true,
    }
}

fn guess_content(alloc: Global, path: &str) -> Result<Option<Text>, OutOfMemory>
    ensures { IfOk result (λ content. content ≡ content_type_of path.now) }
{
    match content_of(path) {
        Some(content) => Ok(Some(Text::of(alloc, content)?)),
        None => Ok(None),
    }
}

fn content_by(alloc: Global, errand: &Errand, path: &str) -> Result<Option<Text>, OutOfMemory>
    ensures { IfOk result (λ content. content ≡ content_by errand.now.content errand.now.guess path.now) }
{
    match &errand.content {
        Some(content) => Ok(Some(content.copy()?)),
        None if errand.guess => guess_content(alloc, path),
        None => Ok(None),
    }
}

fn content_for(alloc: Global, errand: &Errand, source: &Place) -> Result<Option<Text>, OutOfMemory>
    ensures { IfOk result (λ content. content ≡ content_for errand.now errand.now.kind source.now) }
{
    match (errand.kind, source) {
        (Kind::Upload, Place::File { path }) => content_by(alloc, errand, path.as_str()),
        _ => Ok(None),
    }
}

pub(crate) fn transfer(
    alloc: Global,
    route: &Route<'_>,
    path: &str,
    entry: &Entry,
) -> Result<Task, OutOfMemory>
    ensures { IfOk result (λ task. task ≡ transfer_task route.now.errand.now
        (source_at route.now.errand.now.from route.now.many path.now)
        (dest_at route.now.to.now route.now.many path.now) entry.now) }
{
    let etag = entry.etag.copy()?;
    let source = source_at(alloc, &route.errand.from, route.many, path)?;
    let content = content_for(alloc, route.errand, &source)?;
    let dest = dest_at(alloc, route.to, route.many, path)?;
    Ok(Task {
        kind: route.errand.kind,
        moves: route.errand.moves,
        source: Some(source),
        dest,
        size: entry.size,
        etag,
        micros: entry.micros,
        content,
        fresh: route.errand.fresh,
    })
}

fn removal_kind(place: &Place) -> Kind
    ensures { result ≡ removal_kind place.now }
{
    match place {
        Place::Object { .. } => Kind::RemoveObject,
        Place::File { .. } => Kind::RemoveFile,
    }
}

/// The removal of what stands at a name.
pub(crate) fn removal(
    alloc: Global,
    from: &Place,
    many: bool,
    path: &str,
    entry: &Entry,
) -> Result<Task, OutOfMemory>
    ensures { IfOk result (λ task. task ≡ removal_task (source_at from.now many path.now) entry.now) }
{
    let etag = entry.etag.copy()?;
    let dest = source_at(alloc, from, many, path)?;
    Ok(Task {
        kind: removal_kind(&dest),
        moves: false,
        source: None,
        dest,
        size: entry.size,
        etag,
        micros: entry.micros,
        content: None,
        fresh: false,
    })
}
