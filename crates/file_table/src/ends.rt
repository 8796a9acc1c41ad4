//! The keys of a map that are paths below a folder.

ghost use Rattle.std.specs.Prelude.{◌≡◌, ◌++◌, ◌∷◌, [], IfOk, string_bytes};
ghost use Rattle.std.specs.List.{list_any};
ghost use Rattle.std.specs.String.{string_cmp};
ghost use Rattle.std.specs.BTreeMap as tree;
ghost use Rattle.file_table.specs.Below.{AreEnds};
ghost use Rattle.s3_model.specs.Files.{is_below, folder_path, ends_in_slash as ends_slash};

use s3_model::OutOfMemory;
use std::alloc::Global;
use std::collections::BTreeMap;

/// The texts between which all paths below a folder stand in byte order: the folder's path with its final `/`, and the
/// same with the next byte, `0`, in its place.
#[derive(Drop)]
pub(crate) struct Ends {
    pub(crate) first: String,
    pub(crate) last: String,
}

impl Ends {
    pub(crate) fn of(alloc: Global, folder: &str) -> Result<Ends, OutOfMemory>
        ensures { IfOk result (λ ends. AreEnds folder.now (string_bytes ends.first) (string_bytes ends.last)) }
    {
        let stem = stem_of(folder);
        Ok(Ends {
            first: ended(alloc, stem, "/")?,
            last: ended(alloc, stem, "0")?,
        })
    }
}

// The path without its final `/`.
fn stem_of(folder: &str) -> &str
    ensures { folder_path folder.now ≡ result.now ++ 47 ∷ [] }
{
    match folder.strip_suffix('/') {
        Some(stem) => stem,
        None => folder,
    }
}

fn ended(alloc: Global, stem: &str, end: &str) -> Result<String, OutOfMemory>
    ensures { IfOk result (λ text. string_bytes text ≡ stem.now ++ end.now) }
{
    let Ok(mut text) = String::from_str(alloc, stem) else {
        return Err(OutOfMemory);
    };
    match text.push_str(end) {
        Ok(()) => Ok(text),
        Err(_) => Err(OutOfMemory),
    }
}

/// Whether some key is a path below the folder.
pub(crate) fn has_between<V>(map: &BTreeMap<String, V>, folder: &str, ends: &Ends) -> bool
    requires { AreEnds folder.now (string_bytes ends.now.first) (string_bytes ends.now.last) }
    ensures below { result ≡ list_any (λ k. is_below folder.now (string_bytes k)) (tree.keys map.now) }
    ensures ordered { tree.IsOrdered string_cmp map.now }
{
    map.range(&ends.first..&ends.last).next().is_some()
}

/// The same, where there is no memory for the ends.
pub(crate) fn any_below<V>(map: &BTreeMap<String, V>, folder: &str) -> bool
    ensures below { result ≡ list_any (λ k. is_below folder.now (string_bytes k)) (tree.keys map.now) }
    ensures ordered { tree.IsOrdered string_cmp map.now }
{
    map.keys()
        .any(|path| is_path_below(folder.as_bytes(), path.as_bytes()))
}

fn is_path_below(folder: &[u8], path: &[u8]) -> bool
    ensures { result ≡ is_below folder.now path.now }
{
    if !path.starts_with(folder) {
        return false;
    }
    ends_in_slash(folder) || (folder.len() < path.len() && path[folder.len()] == b'/')
}

pub(crate) fn ends_in_slash(path: &[u8]) -> bool
    ensures { result ≡ ends_slash path.now }
{
    match path {
        [.., last] => *last == b'/',
        [] => false,
    }
}
