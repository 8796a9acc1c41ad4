//! Lists of paths.

ghost use Rattle.std.specs.Prelude.{◌≡◌, ◌⊎◌, ◌↔◌, ◌++◌, ◌∷◌, ℕ, List, [], true, OnErr, OnOk, IsSome};
ghost use Rattle.std.specs.FinMap.{get};
ghost use Rattle.local_files.specs.Names.{IsName};
ghost use Rattle.s3_model.specs.Files.{folder_path, is_listed as listed};

use crate::keys_below::add_direct;
use crate::names::NameSet;
use s3_model::{OutOfMemory, Text};
use std::alloc::Global;
use std::marker::Model;
use text_maps::TextMap;

/// Paths in the order in which they were added, and the set of them.
#[derive(Drop)]
pub(crate) struct PathList {
    paths: Vec<Text>,
    index: TextMap<()>,
}

impl Model for PathList {
    ghost use Rattle.std.specs.Prelude.{List, ℕ};
    ghost use Rattle.std.specs.Coded.{coded_list};
    ghost use Rattle.file_table.specs.StoreCode.{text_code};
    ghost use Rattle.file_table.specs.Folders.{IsIndex};

    ghost Value = { List (List ℕ) };

    ghost coded = { coded_list text_code };

    ghost view = { λ l. l.paths.items };

    ghost invariant = { λ l. IsIndex l.paths.items l.index };
}

impl PathList {
    /// No paths, which takes no memory.
    pub(crate) fn make(alloc: Global) -> PathList
        ensures { result ≡ [] }
    {
        PathList {
            paths: Vec::new(alloc),
            index: TextMap::make(alloc),
        }
    }

    pub(crate) fn has(&self, path: &str) -> bool
        ensures { result ≡ listed self.now path.now }
    {
        self.index.has(path)
    }

    /// Adds a path at the end.
    pub(crate) fn push(&mut self, alloc: Global, path: &str) -> Result<(), OutOfMemory>
        ensures added { OnOk result (self.new ≡ self.old ++ path.now ∷ []) }
        ensures same { OnErr result (self.new ≡ self.old) }
    {
        let owned = Text::of(alloc, path)?;
        if self.paths.reserve(1).is_err() {
            return Err(OutOfMemory);
        }
        self.index.insert(alloc, path, ())?;
        let Ok(()) = self.paths.push(owned) else {
            unreachable!();
        };
        Ok(())
    }

    /// Adds the names of the paths that stand right in a folder.
    pub(crate) fn add_direct(
        &self,
        alloc: Global,
        folder: &str,
        found: &mut NameSet,
    ) -> Result<(), OutOfMemory>
        ensures added { OnOk result ((name : List ℕ) → IsSome (get found.new name) ↔ (IsSome (get found.old name) ⊎
            (IsName name × (listed self.now (folder_path folder.now ++ name) ≡ true)))) }
    {
        add_direct(&self.index, alloc, folder, found)
    }
}
