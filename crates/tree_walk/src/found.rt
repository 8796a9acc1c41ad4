//! What a walk has found so far.

ghost use Rattle.std.specs.Prelude.{◌≡◌, ◌++◌, ◌∷◌, [], IfErr, IfOk, OnOk};
ghost use Rattle.std.specs.FinMap.{empty, insert};
ghost use Rattle.tree_walk.specs.Finding.{Adds, IsFew, IsOver};

use crate::paths::depth;
use s3_model::{Text, WalkFault};
use s3_outside::Shape;
use std::alloc::Global;
use std::mem;
use text_maps::TextMap;

/// How many files a tree may have.
const MOST_FILES: usize = 1_000_000;

/// How many names a folder may be below the root.
const DEEPEST: usize = 128;

#[derive(Clone, Copy, Drop)]
pub(crate) struct Look {
    pub(crate) size: u64,
    pub(crate) micros: u64,
}

/// The files, what is neither file nor folder, and the folders in the order in which they are visited, with how many of
/// their names are no text. Paths go on from the root, which is the empty path.
#[derive(Drop)]
pub(crate) struct Found {
    pub(crate) files: TextMap<Look>,
    pub(crate) others: TextMap<()>,
    pub(crate) unnamed: TextMap<u64>,
    pub(crate) folders: Vec<Text>,
}

impl Found {
    /// Nothing, which takes no memory.
    pub(crate) fn make(alloc: Global) -> Found
        ensures files { result.files ≡ empty }
        ensures others { result.others ≡ empty }
        ensures unnamed { result.unnamed ≡ empty }
        ensures folders { result.folders.items ≡ [] }
    {
        Found {
            files: TextMap::make(alloc),
            others: TextMap::make(alloc),
            unnamed: TextMap::make(alloc),
            folders: Vec::new(alloc),
        }
    }

    /// The root, which is to be visited.
    pub(crate) fn begin(alloc: Global) -> Result<Found, WalkFault>
        ensures files { IfOk result (λ found. found.files ≡ empty) }
        ensures others { IfOk result (λ found. found.others ≡ empty) }
        ensures unnamed { IfOk result (λ found. found.unnamed ≡ empty) }
        ensures folders { IfOk result (λ found. found.folders.items ≡ [] ∷ []) }
        ensures memory { IfErr result (λ fault. fault ≡ WalkFault.Memory) }
    {
        let mut found = Found::make(alloc);
        match found.push_folder(alloc, "") {
            Ok(()) => Ok(found),
            Err(fault) => {
                mem::drop(found);
                Err(fault)
            }
        }
    }

    /// Adds what stands at a path.
    #[tactic(auto, using(crate::proofs::FoundLemmas::over_memory))]
    pub(crate) fn add(&mut self, alloc: Global, path: &str, shape: Shape) -> Result<(), WalkFault>
        ensures added { OnOk result (Adds path.now shape self.old self.new) }
        ensures few { OnOk result (IsFew self.old → IsFew self.new) }
        ensures over { IfErr result (IsOver path.now shape self.old self.new) }
    {
        match shape {
            Shape::Absent => Ok(()),
            Shape::Folder => self.add_folder(alloc, path),
            Shape::Other => self.add_other(alloc, path),
            Shape::File { size, micros } => self.add_file(alloc, path, Look { size, micros }),
        }
    }

    #[tactic(auto, using(crate::proofs::FoundLemmas::over_memory))]
    fn add_file(&mut self, alloc: Global, path: &str, look: Look) -> Result<(), WalkFault>
        ensures added { OnOk result (Adds path.now (Shape.File look.size look.micros) self.old self.new) }
        ensures few { OnOk result (IsFew self.new) }
        ensures over { IfErr result (IsOver path.now (Shape.File look.size look.micros) self.old self.new) }
    {
        self.files.insert(alloc, path, look)?;
        let count = self.files.len();
        if MOST_FILES < count {
            return Err(WalkFault::TooMany);
        }
        Ok(())
    }

    fn add_other(&mut self, alloc: Global, path: &str) -> Result<(), WalkFault>
        ensures added { OnOk result (Adds path.now Shape.Other self.old self.new) }
        ensures memory { IfErr result (λ fault. fault ≡ WalkFault.Memory) }
    {
        Ok(self.others.insert(alloc, path, ())?)
    }

    /// Sets how many names of a folder are no text.
    pub(crate) fn count(
        &mut self,
        alloc: Global,
        folder: &str,
        unnamed: u64,
    ) -> Result<(), WalkFault>
        ensures files { self.new.files ≡ self.old.files }
        ensures others { self.new.others ≡ self.old.others }
        ensures folders { self.new.folders.items ≡ self.old.folders.items }
        ensures counted { OnOk result (self.new.unnamed ≡ insert self.old.unnamed folder.now unnamed) }
        ensures memory { IfErr result (λ fault. fault ≡ WalkFault.Memory) }
    {
        Ok(self.unnamed.insert(alloc, folder, unnamed)?)
    }

    #[tactic(auto, using(crate::proofs::FoundLemmas::over_memory))]
    fn add_folder(&mut self, alloc: Global, path: &str) -> Result<(), WalkFault>
        ensures added { OnOk result (Adds path.now Shape.Folder self.old self.new) }
        ensures over { IfErr result (IsOver path.now Shape.Folder self.old self.new) }
    {
        if DEEPEST < depth(path) {
            return Err(WalkFault::TooDeep);
        }
        self.push_folder(alloc, path)
    }

    /// Adds a folder that is to be visited, however deep.
    pub(crate) fn push_folder(&mut self, alloc: Global, path: &str) -> Result<(), WalkFault>
        ensures files { self.new.files ≡ self.old.files }
        ensures others { self.new.others ≡ self.old.others }
        ensures unnamed { self.new.unnamed ≡ self.old.unnamed }
        ensures folders { OnOk result (self.new.folders.items ≡ self.old.folders.items ++ path.now ∷ []) }
        ensures memory { IfErr result (λ fault. fault ≡ WalkFault.Memory) }
    {
        let path = Text::of(alloc, path)?;
        match self.folders.push(path) {
            Ok(()) => Ok(()),
            Err(_) => Err(WalkFault::Memory),
        }
    }
}
