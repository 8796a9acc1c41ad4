//! Files and folders in memory.

ghost use Rattle.std.specs.Prelude.{
  ◌≡◌,
  ◌≢◌,
  ◌≤◌,
  ◌++◌,
  [],
  ◌∷◌,
  Ok,
  Some,
  None,
  true,
  OnOk,
  OnErr,
  IfNone,
  IfOk,
  IfErr,
  IfSome,
  IsNone,
  IsSome,
  length,
  take,
  is_some,
  ℕ,
  IsCharBoundary,
};
ghost use Rattle.std.specs.Option.{option_copied, unwrap_or};
ghost use Rattle.std.specs.FinMap.{empty, get, insert};
ghost use Rattle.s3_model.specs.Files.{is_folder, is_listed as listed};
ghost use Rattle.local_files.specs.Calls.{DropTemp, Remove, Rename, Stamp, WriteAt};
ghost use Rattle.local_files.specs.Names.{AreNames};
ghost use Rattle.file_table.specs.Table.{AreAlike, HasPlace, Moves};
ghost use Rattle.local_files.specs.Changes.{Changes, IsFileAbove, IsFree, IsInTheWay};

use crate::file::MemFile;
use crate::folders::add_folders;
use crate::keys_below::{add_names, has_below};
use crate::path_list::PathList;
use s3_model::{OutOfMemory, Texts};
use std::alloc::Global;
use std::marker::Model;
use text_maps::TextMap;

/// Why files in memory were not changed.
#[derive(Clone, Copy)]
pub enum TableFault {
    Absent,
    Memory,
}

/// Files and folders in memory.
#[derive(Drop)]
pub struct FileTable {
    alloc: Global,
    held: TextMap<MemFile>,
    empty_folders: PathList,
    others: PathList,
    unnamed: TextMap<u64>,
}

impl Model for FileTable {
    ghost use Rattle.s3_model.specs.Files.{FileStore};
    ghost use Rattle.file_table.specs.StoreCode.{store_code};

    ghost Value = { FileStore };

    ghost coded = { store_code };

    ghost view = { λ t. record {
      held = t.held;
      empty_folders = t.empty_folders;
      others = t.others;
      unnamed = t.unnamed;
    } };
}

impl FileTable {
    /// No files, which takes no memory.
    pub fn make(alloc: Global) -> FileTable
        ensures { result ≡ record { held = empty; empty_folders = []; others = []; unnamed = empty } }
    {
        FileTable {
            alloc,
            held: TextMap::make(alloc),
            empty_folders: PathList::make(alloc),
            others: PathList::make(alloc),
            unnamed: TextMap::make(alloc),
        }
    }

    pub fn file(&self, path: &str) -> Option<&MemFile>
        ensures { option_copied result ≡ get self.now.held path.now }
    {
        self.held.get(path)
    }

    pub fn is_folder(&self, path: &str) -> bool
        ensures { result ≡ is_folder self.now path.now }
    {
        self.empty_folders.has(path) || has_below(&self.held, self.alloc, path)
    }

    /// Whether something that is neither file nor folder is listed at the path.
    pub fn is_other(&self, path: &str) -> bool
        ensures { result ≡ listed self.now.others path.now }
    {
        self.others.has(path)
    }

    /// The names of what stands in a folder.
    pub fn names(&self, alloc: Global, folder: &str) -> Result<Texts, OutOfMemory>
        ensures { IfOk result (λ names. AreNames self.now folder.now names.items) }
    {
        let mut found = TextMap::make(alloc);
        add_names(&self.held, alloc, folder, &mut found)?;
        self.empty_folders.add_direct(alloc, folder, &mut found)?;
        self.others.add_direct(alloc, folder, &mut found)?;
        found.texts(alloc)
    }

    /// How many names of a folder are no text.
    pub fn unnamed(&self, folder: &str) -> u64
        ensures { result ≡ unwrap_or (get self.now.unnamed folder.now) 0 }
    {
        self.unnamed.get(folder).copied().unwrap_or(0)
    }

    /// What is in the way of a destination, by the length of its path: a folder at its place, or a file above it.
    pub fn obstacle(&self, dest: &str) -> Option<usize>
        ensures way { IfSome result (IsInTheWay self.now dest.now) }
        ensures free { IfNone result (IsFree self.now dest.now) }
    {
        if self.is_folder(dest) {
            return Some(dest.len());
        }
        file_above(&self.held, dest)
    }

    /// Puts a file at a path, in the place of one that is there.
    pub fn put_file(&mut self, alloc: Global, path: &str, file: MemFile) -> Result<(), OutOfMemory>
        ensures put { OnOk result (self.new ≡ record self.old { held = insert self.old.held path.now file }) }
        ensures same { OnErr result (self.new ≡ self.old) }
    {
        self.held.insert(alloc, path, file)
    }

    /// Adds an empty folder.
    pub fn add_folder(&mut self, alloc: Global, path: &str) -> Result<(), OutOfMemory>
        ensures added { OnOk result
            (self.new ≡ record self.old { empty_folders = self.old.empty_folders ++ path.now ∷ [] }) }
        ensures same { OnErr result (self.new ≡ self.old) }
    {
        self.empty_folders.push(alloc, path)
    }

    /// Adds something that is neither file nor folder.
    pub fn add_other(&mut self, alloc: Global, path: &str) -> Result<(), OutOfMemory>
        ensures added { OnOk result (self.new ≡ record self.old { others = self.old.others ++ path.now ∷ [] }) }
        ensures same { OnErr result (self.new ≡ self.old) }
    {
        self.others.push(alloc, path)
    }

    /// Sets how many names of a folder are no text.
    pub fn set_unnamed(
        &mut self,
        alloc: Global,
        folder: &str,
        count: u64,
    ) -> Result<(), OutOfMemory>
        ensures set { OnOk result (self.new ≡ record self.old { unnamed = insert self.old.unnamed folder.now count }) }
        ensures same { OnErr result (self.new ≡ self.old) }
    {
        self.unnamed.insert(alloc, folder, count)
    }

    /// Writes bytes into a file from place `at` on.
    pub fn write(
        &mut self,
        alloc: Global,
        path: &str,
        at: u64,
        bytes: &[u8],
    ) -> Result<(), TableFault>
        ensures written { OnOk result (Changes (WriteAt path.now at bytes.now true) self.old self.new) }
        ensures same { OnErr result (self.new ≡ self.old) }
        ensures absent { IfErr result (λ fault. fault ≡ TableFault.Absent → IsNone (get self.old.held path.now)) }
    {
        let Some(mut file) = self.held.replace(path, MemFile::empty(alloc)) else {
            return Err(TableFault::Absent);
        };
        match file.write(at, bytes) {
            Ok(()) => {
                self.held.replace(path, file);
                Ok(())
            }
            Err(OutOfMemory) => {
                self.held.replace(path, file);
                Err(TableFault::Memory)
            }
        }
    }

    /// Sets the time of a file, in microseconds since 1970.
    pub fn stamp(&mut self, alloc: Global, path: &str, micros: u64) -> Result<(), TableFault>
        ensures stamped { OnOk result (Changes (Stamp path.now micros true) self.old self.new) }
        ensures same { OnErr result (self.new ≡ self.old) }
        ensures absent { IfErr result (λ fault. fault ≡ TableFault.Absent → IsNone (get self.old.held path.now)) }
    {
        let Some(file) = self.held.replace(path, MemFile::empty(alloc)) else {
            return Err(TableFault::Absent);
        };
        self.held.replace(path, file.with_micros(micros));
        Ok(())
    }

    /// Takes a file away. The folders above it stay.
    pub fn remove(&mut self, alloc: Global, path: &str) -> Result<(), TableFault>
        ensures removed { OnOk result (Changes (Remove path.now true) self.old self.new) }
        ensures dropped { OnOk result (Changes (DropTemp path.now true) self.old self.new) }
        ensures there { OnOk result (IsSome (get self.old.held path.now)) }
        ensures same { OnErr result (AreAlike self.old self.new) }
        ensures absent { IfErr result (λ fault. fault ≡ TableFault.Absent → IsNone (get self.old.held path.now)) }
    {
        if !self.held.has(path) {
            return Err(TableFault::Absent);
        }
        if add_folders(alloc, path, &mut self.empty_folders).is_err() {
            return Err(TableFault::Memory);
        }
        self.held.remove(path);
        Ok(())
    }

    /// Puts a file in the place of another. The folders above it stay.
    pub fn rename(&mut self, alloc: Global, temp: &str, dest: &str) -> Result<(), TableFault>
        ensures renamed { OnOk result (Changes (Rename temp.now dest.now None) self.old self.new) }
        ensures same { OnErr result (AreAlike self.old self.new) }
        ensures absent { IfErr result (λ fault. fault ≡ TableFault.Absent → IsNone (get self.old.held temp.now)) }
    {
        if !self.held.has(temp) {
            return Err(TableFault::Absent);
        }
        if temp == dest {
            return Ok(());
        }
        if add_folders(alloc, temp, &mut self.empty_folders).is_err() {
            return Err(TableFault::Memory);
        }
        if move_file(&mut self.held, alloc, temp, dest).is_err() {
            return Err(TableFault::Memory);
        }
        Ok(())
    }
}

// Puts a file in the place of another. The memory for the place is taken first.
fn move_file(
    held: &mut TextMap<MemFile>,
    alloc: Global,
    temp: &str,
    dest: &str,
) -> Result<(), OutOfMemory>
    requires there { IsSome (get held.old temp.now) }
    requires apart { temp.now ≢ dest.now }
    ensures moved { OnOk result (Moves temp.now dest.now held.old held.new) }
    ensures same { OnErr result (held.new ≡ held.old) }
{
    make_place(held, alloc, dest)?;
    if let Some(file) = held.remove(temp) {
        held.replace(dest, file);
    }
    Ok(())
}

// An empty file, where there is none.
fn make_place(held: &mut TextMap<MemFile>, alloc: Global, path: &str) -> Result<(), OutOfMemory>
    ensures made { OnOk result (HasPlace path.now held.old held.new) }
    ensures same { OnErr result (held.new ≡ held.old) }
{
    if held.has(path) {
        return Ok(());
    }
    held.insert(alloc, path, MemFile::empty(alloc))
}

// A place of the path at which a file stands where it has a folder.
fn file_above(held: &TextMap<MemFile>, path: &str) -> Option<usize>
    ensures found { IfSome result (IsFileAbove held.now path.now) }
    ensures none { IfNone result ((n : ℕ) → IsFileAbove held.now path.now n → ⊥) }
{
    for end in 0..path.len() {
        if path.as_bytes()[end] == b'/' && has_front(held, path, end) {
            return Some(end);
        }
    }
    None
}

fn has_front(held: &TextMap<MemFile>, path: &str, end: usize) -> bool
    requires { IsCharBoundary path.now end }
    ensures { result ≡ is_some (get held.now (take end path.now)) }
{
    let (front, _) = path.split_at(end);
    held.get(front).is_some()
}
