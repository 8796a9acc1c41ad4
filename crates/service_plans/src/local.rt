//! What local files show.

ghost use Rattle.std.specs.Prelude.{◌≡◌, ◌≢◌, ◌≤◌, IfErr, IfOk, IfSome};
ghost use Rattle.s3_model.specs.Counts.{Rose};
ghost use Rattle.s3_outside.specs.Files.{shape_at};
ghost use Rattle.tree_walk.specs.Trees.{OnlyLooks};
ghost use Rattle.service_plans.specs.Local.{
  HoldsSource,
  HoldsTree,
  IsHeldAlone,
  IsOneFault,
  IsSourceFault,
  IsTreeFault,
  files_seen,
};
ghost use Rattle.service_plans.specs.Looked.{looked_in as looked_of};
ghost use Rattle.service_plans.specs.Sides.{entries_in};

use crate::found::{Found, Side};
use crate::halted::{Halted, walk_halted};
use crate::looked::{looked_in, not_a_file};
use command_errands::{LocalSource, local_source, single_file};
use s3_model::{Entries, OutOfMemory, WalkFault};
use s3_outside::{Files, Shape};
use std::alloc::Global;
use std::mem;
use tree_walk::{Walked, walk};

/// What stands at a path.
#[tactic(auto, using(tree_walk::proofs::WalkLemmas::keeps_kind))]
pub(crate) fn look<F: Files>(files: &mut F, path: &str) -> Result<Shape, Halted>
    ensures shape { IfSome (F.seen files.new) (λ now. IfOk result (λ shape. shape ≡ shape_at now.store path.now)) }
    ensures failed { IfErr result (λ why. (why ≡ Halted.Walk WalkFault.Files)
        × Rose (F.faults files.old) (F.faults files.new)) }
    ensures kept { OnlyLooks (F.seen files.old) (F.seen files.new) (F.faults files.old) (F.faults files.new) }
    ensures later { F.faults files.old ≤ F.faults files.new }
{
    match files.kind(path) {
        Ok(shape) => Ok(shape),
        Err(_) => Err(Halted::Walk(WalkFault::Files)),
    }
}

/// What a walk found below a root.
fn found_in(alloc: Global, root: &str, walked: Walked) -> Result<Found, OutOfMemory>
    ensures entries { IfOk result (λ found. entries_in found.side ≡ walked.entries.items) }
    ensures looked { IfOk result (λ found. found.looked.items ≡
        looked_of root.now walked.others.items walked.unnamed) }
{
    match looked_in(alloc, root, &walked) {
        Ok(looked) => {
            let Walked { entries, .. } = walked;
            Ok(Found {
                side: Side::Held(entries),
                looked,
            })
        }
        Err(OutOfMemory) => {
            mem::drop(walked);
            Err(OutOfMemory)
        }
    }
}

/// The tree below a local folder.
pub(crate) fn find_tree<F: Files>(alloc: Global, files: &mut F, root: &str) -> Result<Found, Halted>
    ensures found { IfOk result (λ found. HoldsTree (files_seen (F.seen files.new) (F.faults files.old)
        (F.faults files.new)) root.now (entries_in found.side) found.looked.items) }
    ensures refused { IfErr result (IsTreeFault (files_seen (F.seen files.new) (F.faults files.old)
        (F.faults files.new)) root.now) }
    ensures kept { OnlyLooks (F.seen files.old) (F.seen files.new) (F.faults files.old) (F.faults files.new) }
    ensures later { F.faults files.old ≤ F.faults files.new }
{
    match walk(alloc, files, root) {
        Ok(walked) => Ok(found_in(alloc, root, walked)?),
        Err(fault) => Err(walk_halted(fault)),
    }
}

/// What a local source that is no folder comes to.
fn find_one(alloc: Global, source: LocalSource) -> Result<Found, Halted>
    requires { source ≢ LocalSource.Folder }
    ensures held { IfOk result (λ found. IsHeldAlone source (entries_in found.side) found.looked.items) }
    ensures refused { IfErr result (IsOneFault source) }
{
    match source {
        LocalSource::File(entry) => {
            let entries = single_file(alloc, entry)?;
            Ok(Found::held(alloc, entries))
        }
        LocalSource::NotAFile(path) => Ok(Found {
            side: Side::Held(Entries::make(alloc)),
            looked: not_a_file(alloc, path)?,
        }),
        LocalSource::Refused(fault) => Err(Halted::Plan(fault)),
        LocalSource::Folder => unreachable!(),
    }
}

/// What stands at a local source: one name, or a tree where there may be many.
pub(crate) fn find_source<F: Files>(
    alloc: Global,
    files: &mut F,
    many: bool,
    path: &str,
) -> Result<Found, Halted>
    ensures found { IfOk result (λ found. HoldsSource (files_seen (F.seen files.new) (F.faults files.old)
        (F.faults files.new)) many path.now (entries_in found.side) found.looked.items) }
    ensures refused { IfErr result (IsSourceFault (files_seen (F.seen files.new) (F.faults files.old)
        (F.faults files.new)) many path.now) }
    ensures kept { OnlyLooks (F.seen files.old) (F.seen files.new) (F.faults files.old) (F.faults files.new) }
    ensures later { F.faults files.old ≤ F.faults files.new }
{
    let shape = look(files, path)?;
    match local_source(alloc, path, many, shape)? {
        LocalSource::Folder => find_tree(alloc, files, path),
        one => find_one(alloc, one),
    }
}
