//! The keys of a map that are paths below a folder: whether there are any, and which names they show in it.

ghost use Rattle.std.specs.Prelude.{◌≡◌, ◌⊎◌, ◌↔◌, ◌++◌, ℕ, List, IsSome, OnOk};
ghost use Rattle.std.specs.List.{list_any};
ghost use Rattle.std.specs.FinMap.{get, keys};
ghost use Rattle.file_table.specs.Names.{IsNamedIn};
ghost use Rattle.local_files.specs.Names.{IsName};
ghost use Rattle.s3_model.specs.Files.{folder_path, is_below};

use crate::ends::{Ends, any_below, has_between};
use crate::names::{NameSet, add_last, add_name};
use s3_model::OutOfMemory;
use std::alloc::Global;
use text_maps::TextMap;

/// Whether some key is a path below that folder. Where there is no memory for its path, all keys are looked at.
pub(crate) fn has_below<V: Drop>(map: &TextMap<V>, alloc: Global, folder: &str) -> bool
    ensures { result ≡ list_any (is_below folder.now) (keys map.now) }
{
    match Ends::of(alloc, folder) {
        Ok(ends) => has_between(map.tree(), folder, &ends),
        Err(_) => any_below(map.tree(), folder),
    }
}

/// Adds the names that the keys show in a folder: those of files and folders in it.
pub(crate) fn add_names<V: Drop>(
    map: &TextMap<V>,
    alloc: Global,
    folder: &str,
    found: &mut NameSet,
) -> Result<(), OutOfMemory>
    ensures added { OnOk result ((name : List ℕ) → IsSome (get found.new name) ↔ (IsSome (get found.old name) ⊎
        ((key : List ℕ) × IsSome (get map.now key) × IsNamedIn folder.now name key))) }
{
    let ends = Ends::of(alloc, folder)?;
    for (key, _) in map.tree().range(&ends.first..&ends.last) {
        add_name(alloc, folder, key.as_str(), found)?;
    }
    Ok(())
}

/// Adds the names of the keys that stand right in a folder.
pub(crate) fn add_direct<V: Drop>(
    map: &TextMap<V>,
    alloc: Global,
    folder: &str,
    found: &mut NameSet,
) -> Result<(), OutOfMemory>
    ensures added { OnOk result ((name : List ℕ) → IsSome (get found.new name) ↔ (IsSome (get found.old name) ⊎
        (IsName name × IsSome (get map.now (folder_path folder.now ++ name))))) }
{
    let ends = Ends::of(alloc, folder)?;
    for (key, _) in map.tree().range(&ends.first..&ends.last) {
        add_last(alloc, folder, key.as_str(), found)?;
    }
    Ok(())
}
