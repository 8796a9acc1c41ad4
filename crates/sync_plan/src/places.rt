//! Where a name comes from and goes to, and which names are left out.

ghost use Rattle.std.specs.Prelude.{◌≡◌, ◌++◌, IfOk, if◌then◌else◌};
ghost use Rattle.s3_paths.specs.Names.{key_skip};
ghost use Rattle.sync_plan.specs.Errands.{dest_at, is_joined, place_at, skip_by, skip_of, source_at, takes_name};

use s3_model::{KeySkip, OutOfMemory, Place, Text, ends_in_slash};
use s3_paths::{joined, name_skip};
use std::alloc::Global;

/// In bytes.
const LONGEST_KEY: usize = 1024;

fn takes_name(to: &Place) -> bool
    ensures { result ≡ takes_name to.now }
{
    match to {
        Place::Object { key, .. } => key.as_str().is_empty() || ends_in_slash(key.as_str()),
        Place::File { path } => ends_in_slash(path.as_str()),
    }
}

fn is_joined(to: &Place, many: bool) -> bool
    ensures { result ≡ is_joined to.now many }
{
    many || takes_name(to)
}

fn below(alloc: Global, place: &Place, path: &str) -> Result<Place, OutOfMemory>
    ensures { IfOk result (λ made. made ≡ place_at place.now path.now) }
{
    match place {
        Place::Object { bucket, key } => Ok(Place::Object {
            bucket: bucket.copy()?,
            key: Text::joined(alloc, &[key.as_str(), path])?,
        }),
        Place::File { path: root } => Ok(Place::File {
            path: joined(alloc, root.as_str(), path)?,
        }),
    }
}

fn place_for(alloc: Global, place: &Place, join: bool, path: &str) -> Result<Place, OutOfMemory>
    ensures { IfOk result (λ made. made ≡ (if join then place_at place.now path.now else place.now)) }
{
    if join {
        below(alloc, place, path)
    } else {
        place.copy()
    }
}

pub(crate) fn source_at(
    alloc: Global,
    from: &Place,
    many: bool,
    path: &str,
) -> Result<Place, OutOfMemory>
    ensures { IfOk result (λ made. made ≡ source_at from.now many path.now) }
{
    place_for(alloc, from, many, path)
}

pub(crate) fn dest_at(
    alloc: Global,
    to: &Place,
    many: bool,
    path: &str,
) -> Result<Place, OutOfMemory>
    ensures { IfOk result (λ made. made ≡ dest_at to.now many path.now) }
{
    place_for(alloc, to, is_joined(to, many), path)
}

fn key_skip(prefix: &str, path: &str) -> Option<KeySkip>
    ensures { result ≡ key_skip (prefix.now ++ path.now) }
{
    let size = prefix.len() + path.len();
    if size == 0 {
        Some(KeySkip::EmptyName)
    } else if size > LONGEST_KEY {
        Some(KeySkip::LongKey(size))
    } else {
        None
    }
}

fn skip_by(to: &Place, join: bool, path: &str) -> Option<KeySkip>
    ensures { result ≡ skip_by to.now join path.now }
{
    match to {
        Place::Object { key, .. } if join => key_skip(key.as_str(), path),
        Place::Object { key, .. } => key_skip("", key.as_str()),
        Place::File { .. } if join => name_skip(path),
        Place::File { .. } => None,
    }
}

/// Why a name is left out.
pub(crate) fn skip_of(to: &Place, many: bool, path: &str) -> Option<KeySkip>
    ensures { result ≡ skip_of to.now many path.now }
{
    skip_by(to, is_joined(to, many), path)
}
