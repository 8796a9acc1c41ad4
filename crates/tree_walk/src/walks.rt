//! The walk over a tree of files.

ghost use Rattle.std.specs.Prelude.{◌≡◌, ◌⊎◌, ◌≤◌, ◌∷◌, [], Contains, Err, IfErr, IfOk, IfSome, OnErr, OnOk, Result, length};
ghost use Rattle.std.specs.List.{AllByRecursion};
ghost use Rattle.local_files.specs.Names.{AreNames, IsName};
ghost use Rattle.s3_outside.specs.FileCalls.{unnamed_in};
ghost use Rattle.s3_model.specs.Counts.{Rose};
ghost use Rattle.s3_model.specs.Entries.{IsAscending, keys_of};
ghost use Rattle.tree_walk.specs.Trees.{
  Describes,
  IsOrderly,
  IsRefused,
  IsWalked,
  LooksOnce,
  OnlyLooks,
  bare as bare_of,
  place_of as place_at,
};
ghost use Rattle.tree_walk.specs.Finding.{IsComplete, IsFew, IsOnTheWay, IsPartway, IsSound, Visits};
ghost use Rattle.s3_outside.specs.Files.{asked_kind, shape_at};
ghost use Rattle.s3_outside.specs.Seen.{IsSeenAfter};

use crate::answers::gather;
use crate::found::Found;
use crate::paths::{bare, child, place_of};
use s3_model::{Entries, Text, Texts, WalkFault};
use s3_outside::{Failed, FileFault, Files, Names, Shape};
use s3_paths::joined;
use std::alloc::Global;
use std::mem;

/// The files of a tree by their paths from the root on, in byte order, with their sizes and times; the paths of what is
/// neither file nor folder, in byte order; and how many names are no text, in all folders together, up to 2^64 - 1.
#[derive(Drop)]
pub struct Walked {
    pub entries: Entries,
    pub others: Texts,
    pub unnamed: u64,
}

/// The tree below a root. A root that is absent or no folder is an empty tree. What vanishes while the tree is walked
/// is left out. Files where a call on files failed, TooDeep where a folder is more than 128 names below the root,
/// TooMany where there are more than 1,000,000 files.
#[tactic(auto, using(crate::proofs::WalkLemmas::walked, crate::proofs::WalkLemmas::untold_seen))]
pub fn walk<F: Files>(alloc: Global, files: &mut F, root: &str) -> Result<Walked, WalkFault>
    ensures ascending { IfOk result (λ walked. IsAscending (keys_of walked.entries.items)) }
    ensures few { IfOk result (λ walked. length walked.entries.items ≤ 1000000) }
    ensures found { IfSome (F.seen files.new) (λ now. IfOk result (λ walked.
        AllByRecursion (Describes now.store root.now) walked.entries.items)) }
    ensures tree { IfSome (F.seen files.new) (λ now. IsOrderly now.store root.now → IfOk result (λ walked.
        IsWalked now.store root.now walked.entries.items walked.others.items walked.unnamed)) }
    ensures refused { IfSome (F.seen files.new) (λ now. IfErr result (IsRefused now.store root.now)) }
    ensures kept { OnlyLooks (F.seen files.old) (F.seen files.new) (F.faults files.old) (F.faults files.new) }
    ensures alone { LooksOnce (bare_of root.now) (F.seen files.old) (F.seen files.new) }
    ensures failed { result ≡ Err WalkFault.Files → Rose (F.faults files.old) (F.faults files.new) }
    ensures later { F.faults files.old ≤ F.faults files.new }
{
    let found = find_all(alloc, files, root)?;
    let walked = gather(alloc, &found);
    mem::drop(found);
    walked
}

// All that stands below a root.
#[tactic(auto, using(crate::proofs::WalkLemmas::no_folder))]
fn find_all<F: Files>(alloc: Global, files: &mut F, root: &str) -> Result<Found, WalkFault>
    ensures found { IfSome (F.seen files.new) (λ now. IfOk result (IsComplete now.store root.now)) }
    ensures few { IfOk result IsFew }
    ensures refused { IfSome (F.seen files.new) (λ now. IfErr result (IsRefused now.store root.now)) }
    ensures kept { OnlyLooks (F.seen files.old) (F.seen files.new) (F.faults files.old) (F.faults files.new) }
    ensures alone { LooksOnce (bare_of root.now) (F.seen files.old) (F.seen files.new) }
    ensures failed { result ≡ Err WalkFault.Files → Rose (F.faults files.old) (F.faults files.new) }
    ensures later { F.faults files.old ≤ F.faults files.new }
{
    match shape_of(files, bare(root)) {
        Ok(Shape::Folder) => find_below(alloc, files, root),
        Ok(_) => Ok(Found::make(alloc)),
        Err(Failed) => Err(WalkFault::Files),
    }
}

// All that stands below a root that is a folder.
#[tactic(auto, using(crate::proofs::WalkLemmas::keeps_all, crate::proofs::WalkLemmas::untold_seen))]
fn find_below<F: Files>(alloc: Global, files: &mut F, root: &str) -> Result<Found, WalkFault>
    ensures found { IfSome (F.seen files.new) (λ now. IfOk result (IsComplete now.store root.now)) }
    ensures few { IfOk result IsFew }
    ensures refused { IfSome (F.seen files.new) (λ now. IfErr result (IsRefused now.store root.now)) }
    ensures kept { OnlyLooks (F.seen files.old) (F.seen files.new) (F.faults files.old) (F.faults files.new) }
    ensures failed { result ≡ Err WalkFault.Files → Rose (F.faults files.old) (F.faults files.new) }
    ensures later { F.faults files.old ≤ F.faults files.new }
{
    let mut found = Found::begin(alloc)?;
    match visit_all(alloc, files, root, &mut found) {
        Ok(()) => Ok(found),
        Err(fault) => {
            mem::drop(found);
            Err(fault)
        }
    }
}

#[tactic(auto, using(crate::proofs::WalkLemmas::keeps_kind))]
fn shape_of<F: Files>(files: &mut F, path: &str) -> Result<Shape, Failed>
    ensures shape { IfSome (F.seen files.new) (λ now. IfOk result (λ shape. shape ≡ shape_at now.store path.now)) }
    ensures kept { OnlyLooks (F.seen files.old) (F.seen files.new) (F.faults files.old) (F.faults files.new) }
    ensures asked { (answer : Result Shape Failed) × IsSeenAfter (asked_kind path.now answer)
        (F.seen files.old) (F.seen files.new) (F.faults files.old) (F.faults files.new) }
    ensures failed { OnErr result (Rose (F.faults files.old) (F.faults files.new)) }
    ensures later { F.faults files.old ≤ F.faults files.new }
{
    files.kind(path)
}

// The names in a folder of the tree.
#[tactic(auto, using(crate::proofs::WalkLemmas::keeps_names))]
fn names_of<F: Files>(
    alloc: Global,
    files: &mut F,
    root: &str,
    folder: &str,
) -> Result<Names, WalkFault>
    ensures folder { IfSome (F.seen files.new) (λ now.
        OnOk result (shape_at now.store (place_at root.now folder.now) ≡ Shape.Folder)) }
    ensures names { IfSome (F.seen files.new) (λ now. IfOk result (λ found.
        AreNames now.store (place_at root.now folder.now) found.names.items)) }
    ensures unnamed { IfSome (F.seen files.new) (λ now. IfOk result (λ found.
        found.unnamed ≡ unnamed_in now.store (place_at root.now folder.now))) }
    ensures kept { OnlyLooks (F.seen files.old) (F.seen files.new) (F.faults files.old) (F.faults files.new) }
    ensures faults { IfErr result (λ fault. (fault ≡ WalkFault.Files) ⊎ (fault ≡ WalkFault.Memory)) }
    ensures failed { result ≡ Err WalkFault.Files → Rose (F.faults files.old) (F.faults files.new) }
    ensures later { F.faults files.old ≤ F.faults files.new }
{
    let place = place_of(alloc, root, folder)?;
    match files.names(alloc, place.as_str()) {
        Ok(names) => Ok(names),
        Err(FileFault::Memory) => Err(WalkFault::Memory),
        Err(_) => Err(WalkFault::Files),
    }
}

// Visits the folders that were found, and those that are found in them.
#[tactic(auto, using(crate::proofs::WalkLemmas::keeps_then, crate::proofs::WalkLemmas::keeps_all, crate::proofs::StepLemmas::way_ends))]
fn visit_all<F: Files>(
    alloc: Global,
    files: &mut F,
    root: &str,
    found: &mut Found,
) -> Result<(), WalkFault>
    ensures visited { IfSome (F.seen files.new) (λ now. IsOnTheWay now.store root.now 0 found.old →
        OnOk result (IsComplete now.store root.now found.new)) }
    ensures few { OnOk result (IsFew found.old → IsFew found.new) }
    ensures kept { OnlyLooks (F.seen files.old) (F.seen files.new) (F.faults files.old) (F.faults files.new) }
    ensures refused { IfSome (F.seen files.new) (λ now. IsOnTheWay now.store root.now 0 found.old →
        IfErr result (IsRefused now.store root.now)) }
    ensures failed { result ≡ Err WalkFault.Files → Rose (F.faults files.old) (F.faults files.new) }
    ensures later { F.faults files.old ≤ F.faults files.new }
{
    let mut place = 0;
    'folders: while let Some(folder) = found.folders.get(place) {
        let folder = folder.copy()?;
        visit(alloc, files, root, folder.as_str(), found)?;
        place += 1;
    }
    Ok(())
}

// Finds what stands in a folder.
#[tactic(auto, using(crate::proofs::WalkLemmas::keeps_then, crate::proofs::WalkLemmas::untold_seen))]
fn visit<F: Files>(
    alloc: Global,
    files: &mut F,
    root: &str,
    folder: &str,
    found: &mut Found,
) -> Result<(), WalkFault>
    ensures visited { IfSome (F.seen files.new) (λ now. IsSound now.store root.now found.old →
        Contains found.old.folders.items folder.now →
        OnOk result (Visits now.store root.now folder.now found.old found.new)) }
    ensures few { OnOk result (IsFew found.old → IsFew found.new) }
    ensures kept { OnlyLooks (F.seen files.old) (F.seen files.new) (F.faults files.old) (F.faults files.new) }
    ensures refused { IfSome (F.seen files.new) (λ now. IsSound now.store root.now found.old →
        IfErr result (IsRefused now.store root.now)) }
    ensures failed { result ≡ Err WalkFault.Files → Rose (F.faults files.old) (F.faults files.new) }
    ensures later { F.faults files.old ≤ F.faults files.new }
{
    let names = names_of(alloc, files, root, folder)?;
    look_at_all(alloc, files, root, folder, names.names.as_slice(), found)?;
    found.count(alloc, folder, names.unnamed)
}

// Looks at what has these names in a folder.
#[tactic(auto, using(crate::proofs::WalkLemmas::keeps_then, crate::proofs::WalkLemmas::keeps_all, crate::proofs::FoundLemmas::partway_none))]
fn look_at_all<F: Files>(
    alloc: Global,
    files: &mut F,
    root: &str,
    folder: &str,
    names: &[Text],
    found: &mut Found,
) -> Result<(), WalkFault>
    ensures found { IfSome (F.seen files.new) (λ now. AllByRecursion IsName names.now →
        IsSound now.store root.now found.old →
        OnOk result (IsPartway now.store root.now folder.now names.now found.old found.new)) }
    ensures few { OnOk result (IsFew found.old → IsFew found.new) }
    ensures kept { OnlyLooks (F.seen files.old) (F.seen files.new) (F.faults files.old) (F.faults files.new) }
    ensures refused { IfSome (F.seen files.new) (λ now. AllByRecursion IsName names.now →
        IsSound now.store root.now found.old → IfErr result (IsRefused now.store root.now)) }
    ensures failed { result ≡ Err WalkFault.Files → Rose (F.faults files.old) (F.faults files.new) }
    ensures later { F.faults files.old ≤ F.faults files.new }
{
    for name in names {
        look_at(alloc, files, root, folder, name.as_str(), found)?;
    }
    Ok(())
}

// Looks at what has a name in a folder.
#[tactic(auto, using(crate::proofs::StepLemmas::looked_seen, crate::proofs::StepLemmas::over_seen, crate::proofs::WalkLemmas::untold_seen))]
fn look_at<F: Files>(
    alloc: Global,
    files: &mut F,
    root: &str,
    folder: &str,
    name: &str,
    found: &mut Found,
) -> Result<(), WalkFault>
    ensures found { IfSome (F.seen files.new) (λ now. IsName name.now → IsSound now.store root.now found.old →
        OnOk result (IsPartway now.store root.now folder.now (name.now ∷ []) found.old found.new)) }
    ensures few { OnOk result (IsFew found.old → IsFew found.new) }
    ensures kept { OnlyLooks (F.seen files.old) (F.seen files.new) (F.faults files.old) (F.faults files.new) }
    ensures refused { IfSome (F.seen files.new) (λ now. IsName name.now → IsSound now.store root.now found.old →
        IfErr result (IsRefused now.store root.now)) }
    ensures failed { result ≡ Err WalkFault.Files → Rose (F.faults files.old) (F.faults files.new) }
    ensures later { F.faults files.old ≤ F.faults files.new }
{
    let path = child(alloc, folder, name)?;
    let full = joined(alloc, root, path.as_str())?;
    match shape_of(files, full.as_str()) {
        Ok(shape) => found.add(alloc, path.as_str(), shape),
        Err(Failed) => Err(WalkFault::Files),
    }
}
