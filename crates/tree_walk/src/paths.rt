//! Paths of a tree.

ghost use Rattle.std.specs.Prelude.{◌≡◌, IfOk};
ghost use Rattle.tree_walk.specs.Trees.{bare as bare_of, child as child_of, depth as depth_of, place_of as place_at};

use s3_model::{OutOfMemory, Text, ends_in_slash};
use s3_paths::joined;
use std::alloc::Global;

/// The path of a name in a folder of the tree.
pub(crate) fn child(alloc: Global, folder: &str, name: &str) -> Result<Text, OutOfMemory>
    ensures { IfOk result (λ path. path ≡ child_of folder.now name.now) }
{
    if folder.is_empty() {
        return Text::of(alloc, name);
    }
    Text::joined(alloc, &[folder, "/", name])
}

/// The root as a folder is looked up: without its final `/`, unless nothing or another `/` stands before that.
pub(crate) fn bare(root: &str) -> &str
    ensures { result.now ≡ bare_of root.now }
{
    let Some(front) = root.strip_suffix('/') else {
        return root;
    };
    if front.is_empty() || ends_in_slash(front) {
        return root;
    }
    front
}

/// The path of a folder of the tree.
pub(crate) fn place_of(alloc: Global, root: &str, folder: &str) -> Result<Text, OutOfMemory>
    ensures { IfOk result (λ path. path ≡ place_at root.now folder.now) }
{
    if folder.is_empty() {
        return Text::of(alloc, bare(root));
    }
    joined(alloc, root, folder)
}

/// How many names a path has.
pub(crate) fn depth(path: &str) -> usize
    ensures { result ≡ depth_of path.now }
{
    path.as_bytes().iter().filter(|byte| **byte == b'/').count() + 1
}
