//! What stands at a local source.

ghost use Rattle.std.specs.Prelude.{◌≡◌, ◌≤◌, ◌∷◌, [], false, None, IfErr, IfOk, IfSome};
ghost use Rattle.result_lines.specs.Faults.{IsPlanFault};
ghost use Rattle.run_report.specs.Texts.{HasLine};
ghost use Rattle.tree_walk.specs.Trees.{OnlyLooks};
ghost use Rattle.dry_runs.specs.Looked.{looked_in as looked_of};
ghost use Rattle.dry_runs.specs.Found.{
  HoldsOne,
  HoldsSource,
  HoldsTree,
  IsSourceFault,
  IsTreeFault,
  file_entry,
  files_seen,
  source_fault,
  walk_fatal,
};

use crate::warnings::looked_in;
use path_names::last_name;
use run_report::{Fatal, list_of};
use s3_model::{Entries, Entry, List, OutOfMemory, PlanFault, Text, WalkFault, Warning, Warnings};
use s3_outside::{Files, Shape};
use std::alloc::Global;
use std::mem;
use tree_walk::{Walked, walk};

/// The entries of a source, and what looking at it warns of.
#[derive(Drop)]
pub struct Found {
    pub entries: Entries,
    pub looked: Warnings,
}

/// How a fault of a walk ends a run.
fn walk_fatal(fault: WalkFault) -> Fatal
    ensures fatal { result ≡ walk_fatal fault }
    ensures line { HasLine result }
{
    match fault {
        WalkFault::Memory => Fatal::Memory,
        other => Fatal::Walk(other),
    }
}

/// What a walk found below a root.
fn found_in(alloc: Global, root: &str, walked: Walked) -> Result<Found, OutOfMemory>
    ensures entries { IfOk result (λ found. found.entries ≡ walked.entries) }
    ensures looked { IfOk result (λ found. found.looked.items ≡
        looked_of root.now walked.others.items walked.unnamed) }
{
    match looked_in(alloc, root, &walked) {
        Ok(looked) => {
            let Walked { entries, .. } = walked;
            Ok(Found { entries, looked })
        }
        Err(fault) => {
            mem::drop(walked);
            Err(fault)
        }
    }
}

/// The tree below a local folder.
fn find_tree<F: Files>(alloc: Global, files: &mut F, root: &str) -> Result<Found, Fatal>
    ensures found { IfOk result (λ found.
        HoldsTree (F.seen files.new) root.now found.entries.items found.looked.items) }
    ensures refused { IfErr result (IsTreeFault (files_seen (F.seen files.old) (F.seen files.new)
        (F.faults files.old) (F.faults files.new)) root.now) }
    ensures line { IfErr result HasLine }
    ensures kept { OnlyLooks (F.seen files.old) (F.seen files.new) (F.faults files.old) (F.faults files.new) }
    ensures later { F.faults files.old ≤ F.faults files.new }
{
    match walk(alloc, files, root) {
        Ok(walked) => Ok(found_in(alloc, root, walked)?),
        Err(fault) => Err(walk_fatal(fault)),
    }
}

/// Why what stands at a path is no source.
fn source_fault(
    alloc: Global,
    many: bool,
    path: &str,
    shape: Shape,
) -> Result<Option<PlanFault>, OutOfMemory>
    ensures fault { IfOk result (λ fault. fault ≡ source_fault many path.now shape) }
    ensures line { IfOk result (λ fault. IfSome fault IsPlanFault) }
{
    match shape {
        Shape::Absent => Ok(Some(PlanFault::NoSource(Text::of(alloc, path)?))),
        Shape::Folder if many => Ok(None),
        Shape::Folder => Ok(Some(PlanFault::IsFolder(Text::of(alloc, path)?))),
        _ if many => Ok(Some(PlanFault::NotFolder(Text::of(alloc, path)?))),
        _ => Ok(None),
    }
}

/// The entry of a file.
fn file_entry(alloc: Global, path: &str, size: u64, micros: u64) -> Result<Entry, OutOfMemory>
    ensures { IfOk result (λ entry. entry ≡ file_entry path.now size micros) }
{
    Ok(Entry {
        key: Text::of(alloc, last_name(path))?,
        size,
        etag: Text::of(alloc, "")?,
        micros,
    })
}

/// A list of one item.
pub(crate) fn only<T: Drop>(alloc: Global, item: T) -> Result<List<T>, OutOfMemory>
    ensures { IfOk result (λ list. list.items ≡ item ∷ []) }
{
    let mut list = list_of(alloc, 1)?;
    list.push(item);
    Ok(list)
}

/// What one name comes to.
fn find_one(alloc: Global, path: &str, shape: Shape) -> Result<Found, OutOfMemory>
    requires { source_fault false path.now shape ≡ None }
    ensures { IfOk result (λ found. HoldsOne path.now shape found.entries.items found.looked.items) }
{
    match shape {
        Shape::File { size, micros } => Ok(Found {
            entries: only(alloc, file_entry(alloc, path, size, micros)?)?,
            looked: Warnings::make(alloc),
        }),
        Shape::Other => Ok(Found {
            entries: Entries::make(alloc),
            looked: only(alloc, Warning::NotAFile(Text::of(alloc, path)?))?,
        }),
        _ => unreachable!(),
    }
}

/// What stands at a local source: one name, or a tree where there may be many.
pub(crate) fn find_source<F: Files>(
    alloc: Global,
    files: &mut F,
    many: bool,
    path: &str,
) -> Result<Found, Fatal>
    ensures found { IfOk result (λ found. HoldsSource (files_seen (F.seen files.old) (F.seen files.new)
        (F.faults files.old) (F.faults files.new)) many path.now found.entries.items found.looked.items) }
    ensures refused { IfErr result (IsSourceFault (files_seen (F.seen files.old) (F.seen files.new)
        (F.faults files.old) (F.faults files.new)) many path.now) }
    ensures line { IfErr result HasLine }
    ensures kept { OnlyLooks (F.seen files.old) (F.seen files.new) (F.faults files.old) (F.faults files.new) }
    ensures later { F.faults files.old ≤ F.faults files.new }
{
    let Ok(shape) = files.kind(path) else {
        return Err(Fatal::Walk(WalkFault::Files));
    };
    match source_fault(alloc, many, path, shape) {
        Ok(Some(fault)) => Err(Fatal::Plan(fault)),
        Ok(None) if many => find_tree(alloc, files, path),
        Ok(None) => Ok(find_one(alloc, path, shape)?),
        Err(_) => Err(Fatal::Memory),
    }
}
