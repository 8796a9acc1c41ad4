//! The names in a folder.

ghost use Rattle.std.specs.Prelude.{◌≡◌, ◌≢◌, ◌↔◌, ◌⊎◌, ◌++◌, ℕ, List, OnOk, IfNone, IfSome, IsSome};
ghost use Rattle.std.specs.FinMap.{get};
ghost use Rattle.s3_model.specs.Files.{ends_in_slash as ends_slash, folder_path};
ghost use Rattle.file_table.specs.Names.{IsFirst, IsNamedIn};
ghost use Rattle.local_files.specs.Names.{IsName};

use s3_model::OutOfMemory;
use std::alloc::Global;
use text_maps::TextMap;

/// A set of names.
pub(crate) type NameSet = TextMap<()>;

/// Adds the name that a path shows in a folder, if it shows one.
pub(crate) fn add_name(
    alloc: Global,
    folder: &str,
    path: &str,
    found: &mut NameSet,
) -> Result<(), OutOfMemory>
    ensures added { OnOk result ((name : List ℕ) → IsSome (get found.new name) ↔
        (IsSome (get found.old name) ⊎ IsNamedIn folder.now name path.now)) }
{
    match first_name(folder, path) {
        Some(name) => found.insert(alloc, name, ()),
        None => Ok(()),
    }
}

/// Adds the name of a path that stands right in a folder.
pub(crate) fn add_last(
    alloc: Global,
    folder: &str,
    path: &str,
    found: &mut NameSet,
) -> Result<(), OutOfMemory>
    ensures added { OnOk result ((name : List ℕ) → IsSome (get found.new name) ↔
        (IsSome (get found.old name) ⊎ (IsName name × (path.now ≡ folder_path folder.now ++ name)))) }
{
    match last_name(folder, path) {
        Some(name) => found.insert(alloc, name, ()),
        None => Ok(()),
    }
}

// The name that a path has in a folder, where it stands right in it.
#[tactic(auto, using(crate::proofs::NameLemmas::name_whole, crate::proofs::NameLemmas::not_whole))]
fn last_name<'a>(folder: &str, path: &'a str) -> Option<&'a str>
    ensures named { IfSome result (λ name. IsName name.now × (path.now ≡ folder_path folder.now ++ name.now)) }
    ensures none { IfNone result ((name : List ℕ) → IsName name → path.now ≢ folder_path folder.now ++ name) }
{
    let Some(name) = path_below(folder, path) else {
        return None;
    };
    if name.is_empty() {
        return None;
    }
    if first_part(name).len() < name.len() {
        return None;
    }
    Some(name)
}

// The first name of a path in a folder.
#[tactic(auto, using(crate::proofs::NameLemmas::unnamed_empty, crate::proofs::NameLemmas::named_first, crate::proofs::NameLemmas::unnamed_beside))]
fn first_name<'a>(folder: &str, path: &'a str) -> Option<&'a str>
    ensures named { IfSome result (λ name. IsNamedIn folder.now name.now path.now) }
    ensures none { IfNone result ((name : List ℕ) → IsNamedIn folder.now name path.now → ⊥) }
{
    let Some(rest) = path_below(folder, path) else {
        return None;
    };
    let name = first_part(rest);
    if name.is_empty() {
        return None;
    }
    Some(name)
}

// What stands before the first `/`.
fn first_part(path: &str) -> &str
    ensures { IsFirst path.now result.now }
{
    match path.split_once('/') {
        Some((name, _)) => name,
        None => path,
    }
}

// What follows the folder's path.
fn path_below<'a>(folder: &str, path: &'a str) -> Option<&'a str>
    ensures below { IfSome result (λ rest. path.now ≡ folder_path folder.now ++ rest.now) }
    ensures none { IfNone result ((rest : List ℕ) → path.now ≢ folder_path folder.now ++ rest) }
{
    let Some(rest) = path.strip_prefix(folder) else {
        return None;
    };
    if ends_in_slash(folder) {
        return Some(rest);
    }
    match rest.strip_prefix('/') {
        Some(below) => Some(below),
        None => None,
    }
}

fn ends_in_slash(path: &str) -> bool
    ensures { result ≡ ends_slash path.now }
{
    crate::ends::ends_in_slash(path.as_bytes())
}
