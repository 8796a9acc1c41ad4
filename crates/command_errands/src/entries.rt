//! The entry of a single object or file.

ghost use Rattle.std.specs.Prelude.{◌≡◌, ℕ, List, ◌∷◌, [], false, IfOk, Some};
ghost use Rattle.s3_model.specs.declared.places.Place.TheVariants as place;
ghost use Rattle.s3_model.specs.Places.{IsObject, key_at};
ghost use Rattle.sync_plan.specs.Errands.{AreEntries};
ghost use Rattle.command_errands.specs.Entries.{object_entry, removal_entry};

use s3_model::{Entries, Entry, OutOfMemory, Place, Text};
use std::alloc::Global;
use std::mem;

/// The key of an object, in a text of its own.
fn copy_key(alloc: Global, from: &Place) -> Result<Text, OutOfMemory>
    ensures { IfOk result (λ key. key ≡ key_at (Some from.now)) }
{
    match from {
        Place::Object { key, .. } => key.copy(),
        Place::File { .. } => Text::of(alloc, ""),
    }
}

/// A list of one entry.
fn one_entry(alloc: Global, entry: Entry) -> Result<Entries, OutOfMemory>
    ensures { IfOk result (λ entries. entries.items ≡ entry ∷ []) }
{
    let mut entries = Entries::make(alloc);
    match entries.reserve(1) {
        Ok(()) => {
            entries.push(entry);
            Ok(entries)
        }
        Err(OutOfMemory) => {
            mem::drop(entry);
            Err(OutOfMemory)
        }
    }
}

/// The entries of one file.
pub fn single_file(alloc: Global, entry: Entry) -> Result<Entries, OutOfMemory>
    ensures entry { IfOk result (λ entries. entries.items ≡ entry ∷ []) }
    ensures entries { IfOk result (λ entries. (path : List ℕ) → AreEntries (place.File path) false entries.items) }
{
    one_entry(alloc, entry)
}

/// The entry of an object whose size in bytes, entity tag and time in microseconds since 1970 a service told
/// (Amazon S3 API Reference, `HeadObject`).
pub fn single_object(
    alloc: Global,
    from: &Place,
    size: u64,
    etag: Text,
    micros: u64,
) -> Result<Entries, OutOfMemory>
    requires object { IsObject (Some from.now) }
    ensures entry { IfOk result (λ entries. entries.items ≡ object_entry from.now size etag micros ∷ []) }
    ensures entries { IfOk result (λ entries. AreEntries from.now false entries.items) }
{
    match copy_key(alloc, from) {
        Ok(key) => one_entry(
            alloc,
            Entry {
                key,
                size,
                etag,
                micros,
            },
        ),
        Err(OutOfMemory) => {
            mem::drop(etag);
            Err(OutOfMemory)
        }
    }
}

/// The entry of an object that is to be removed, of which nothing is asked: no size, no entity tag and no time are known.
pub fn single_removal(alloc: Global, from: &Place) -> Result<Entries, OutOfMemory>
    requires object { IsObject (Some from.now) }
    ensures entry { IfOk result (λ entries. entries.items ≡ removal_entry from.now ∷ []) }
    ensures entries { IfOk result (λ entries. AreEntries from.now false entries.items) }
{
    let etag = Text::of(alloc, "")?;
    single_object(alloc, from, 0, etag, 0)
}
