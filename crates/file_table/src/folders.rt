//! The folders of a path, listed.

ghost use Rattle.std.specs.Prelude.{
  List,
  ℕ,
  ◌≡◌,
  ◌++◌,
  ◌||◌,
  ◌<◌,
  ◌∷◌,
  [],
  OnOk,
  OnErr,
  length,
  take,
  slice_index,
  IsCharBoundary,
};
ghost use Rattle.std.specs.Str.{bytes_eq};
ghost use Rattle.s3_model.specs.Files.{is_below, is_listed as listed};
ghost use Rattle.file_table.specs.Folders.{AddsFolders};

use crate::path_list::PathList;
use s3_model::{OutOfMemory, Text};
use std::alloc::Global;

/// Lists the folders of a path, each with its final `/` and without, so that they stay when nothing is below them. As
/// many as there is memory for.
pub(crate) fn add_folders(
    alloc: Global,
    path: &str,
    folders: &mut PathList,
) -> Result<(), OutOfMemory>
    ensures added { OnOk result ((f : List ℕ) → listed folders.new f ≡
        (is_below f path.now || listed folders.old f)) }
    ensures only { AddsFolders path.now folders.old folders.new }
{
    for end in 0..path.len() {
        if path.as_bytes()[end] == b'/' {
            add_both(alloc, path, end, folders)?;
        }
    }
    Ok(())
}

// The text in front of that place, and the same with a `/`.
fn add_both(
    alloc: Global,
    path: &str,
    end: usize,
    folders: &mut PathList,
) -> Result<(), OutOfMemory>
    requires boundary { IsCharBoundary path.now end }
    requires inside { end < length path.now }
    requires slash { slice_index path.now end ≡ 47 }
    ensures added { OnOk result ((f : List ℕ) → listed folders.new f ≡
        (bytes_eq (take end path.now ++ 47 ∷ []) f || bytes_eq (take end path.now) f || listed folders.old f)) }
    ensures only { OnErr result (AddsFolders path.now folders.old folders.new) }
{
    let (front, _) = path.split_at(end);
    let long = Text::joined(alloc, &[front, "/"])?;
    add(alloc, front, folders)?;
    add(alloc, long.as_str(), folders)
}

fn add(alloc: Global, path: &str, folders: &mut PathList) -> Result<(), OutOfMemory>
    ensures added { OnOk result ((f : List ℕ) → listed folders.new f ≡ (bytes_eq path.now f || listed folders.old f)) }
    ensures same { OnErr result (folders.new ≡ folders.old) }
{
    if folders.has(path) {
        return Ok(());
    }
    folders.push(alloc, path)
}
