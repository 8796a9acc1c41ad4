//! Under which name a key or a prefix stands in its row.

ghost use Rattle.std.specs.Prelude.{◌≡◌, IfOk};
ghost use Rattle.listing_rows.specs.Listings.{key_name, prefix_name};

use path_names::{last_name, without_slash};
use s3_model::{OutOfMemory, Text};
use std::alloc::Global;

/// The whole key of an object under `--recursive`, else what follows its last `/`.
pub(crate) fn key_name(recursive: bool, key: &str) -> &str
    ensures { result.now ≡ key_name recursive key.now }
{
    if recursive { key } else { last_name(key) }
}

/// The whole prefix under `--recursive`, else its last component, with `/`.
pub(crate) fn prefix_name(alloc: Global, recursive: bool, prefix: &str) -> Result<Text, OutOfMemory>
    ensures { IfOk result (λ name. name ≡ prefix_name recursive prefix.now) }
{
    if recursive {
        return Text::of(alloc, prefix);
    }
    Text::joined(alloc, &[last_name(without_slash(prefix)), "/"])
}
