//! The two places of a command, as they are used.

ghost use Rattle.std.specs.Prelude.{◌≡◌, IfOk};
ghost use Rattle.s3_model.specs.Files.{folder_path};
ghost use Rattle.command_errands.specs.Errands.{dest_of, prefix_of, source_of};

use s3_model::{OutOfMemory, Place, Text, ends_in_slash};
use std::alloc::Global;

/// The text with a final `/`.
fn folder_path(alloc: Global, text: Text) -> Result<Text, OutOfMemory>
    ensures { IfOk result (λ path. path ≡ folder_path text) }
{
    if ends_in_slash(text.as_str()) {
        return Ok(text);
    }
    Text::joined(alloc, &[text.as_str(), "/"])
}

/// The prefix of the keys that stand below a key; that of a bucket's whole is empty.
fn prefix_of(alloc: Global, key: Text) -> Result<Text, OutOfMemory>
    ensures { IfOk result (λ prefix. prefix ≡ prefix_of key) }
{
    if key.as_str().is_empty() {
        return Ok(key);
    }
    folder_path(alloc, key)
}

/// The source: where there may be many names, the key of an object is a prefix.
pub(crate) fn source_of(alloc: Global, many: bool, from: Place) -> Result<Place, OutOfMemory>
    ensures { IfOk result (λ source. source ≡ source_of many from) }
{
    match from {
        Place::Object { bucket, key } if many => {
            let key = prefix_of(alloc, key)?;
            Ok(Place::Object { bucket, key })
        }
        other => Ok(other),
    }
}

/// The destination: a key as that of a source, and a folder that one name goes into gets a final `/`.
pub(crate) fn dest_of(
    alloc: Global,
    many: bool,
    into_folder: bool,
    to: Place,
) -> Result<Place, OutOfMemory>
    ensures { IfOk result (λ dest. dest ≡ dest_of many into_folder to) }
{
    match to {
        Place::File { path } if into_folder && !many => {
            let path = folder_path(alloc, path)?;
            Ok(Place::File { path })
        }
        other => source_of(alloc, many, other),
    }
}
