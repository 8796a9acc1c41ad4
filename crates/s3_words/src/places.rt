//! The paths of a command.

ghost use Rattle.std.specs.Prelude.{◌≡◌, ◌≢◌, ◌≤◌, ◌&&◌, ◌||◌, length, true, OnOk, IfOk, IfErr, Some, None};
ghost use Rattle.std.specs.List.{list_all, list_any};
ghost use Rattle.s3_words.specs.Commands.{first_of, second_of};
ghost use Rattle.s3_words.specs.Places.{
  first_is_single_source,
  has_key,
  is_object,
  is_pair,
  is_path,
  is_right_count,
  is_s3,
  is_single_source,
  place_of,
  wanted,
};
ghost use Rattle.s3_words.specs.Values.{bad_unless};

use crate::commands::Verb;
use s3_model::{Place, Text, UriFault, WordFault, ends_in_slash};
use s3_paths::S3Uri;
use std::alloc::Global;

fn read_object(alloc: Global, at: usize, text: &str) -> Result<Place, WordFault>
    requires { is_s3 text.now ≡ true }
    ensures right { OnOk result (bad_unless (is_path text.now) at ≡ None) }
    ensures place { IfOk result (λ place. place ≡ place_of text.now) }
    ensures fault { IfErr result
        (λ fault. fault ≢ WordFault.Memory → bad_unless (is_path text.now) at ≡ Some fault) }
{
    match S3Uri::read(alloc, text) {
        Ok(uri) => Ok(Place::Object {
            bucket: uri.bucket,
            key: uri.key,
        }),
        Err(UriFault::Memory) => Err(WordFault::Memory),
        Err(_) => Err(WordFault::BadValue(at)),
    }
}

/// Reads the path that is the word at this index.
pub(crate) fn read_place(alloc: Global, at: usize, text: &str) -> Result<Place, WordFault>
    ensures right { OnOk result (bad_unless (is_path text.now) at ≡ None) }
    ensures place { IfOk result (λ place. place ≡ place_of text.now) }
    ensures fault { IfErr result
        (λ fault. fault ≢ WordFault.Memory → bad_unless (is_path text.now) at ≡ Some fault) }
{
    if is_s3(text) {
        return read_object(alloc, at, text);
    }
    if text.is_empty() || text == "-" {
        return Err(WordFault::BadValue(at));
    }
    let path = Text::of(alloc, text).map_err(|_| WordFault::Memory)?;
    Ok(Place::File { path })
}

fn is_s3(text: &str) -> bool
    ensures { result ≡ is_s3 text.now }
{
    text.starts_with("s3://")
}

/// How many paths a command wants, or for `ls` how many at most.
pub(crate) fn wanted(verb: Verb) -> usize
    ensures { result ≡ wanted verb }
{
    if verb.transfers() { 2 } else { 1 }
}

pub(crate) fn is_right_count(verb: Verb, found: usize) -> bool
    ensures { result ≡ is_right_count verb found }
{
    match verb {
        Verb::Ls => found <= 1,
        _ => found == wanted(verb),
    }
}

fn is_object(place: &Place) -> bool
    ensures { result ≡ is_object place.now }
{
    matches!(place, Place::Object { .. })
}

fn has_key(place: &Place) -> bool
    ensures { result ≡ has_key place.now }
{
    match place {
        Place::Object { key, .. } => !key.as_str().is_empty(),
        Place::File { .. } => false,
    }
}

fn is_single_source(place: &Place) -> bool
    ensures { result ≡ is_single_source place.now }
{
    match place {
        Place::Object { key, .. } => !key.as_str().is_empty() && !ends_in_slash(key.as_str()),
        Place::File { .. } => true,
    }
}

fn first_is_single_source(places: &[Place]) -> bool
    ensures { result ≡ first_is_single_source places.now }
{
    match places.first() {
        Some(place) => is_single_source(place),
        None => true,
    }
}

fn are_objects(places: &[Place]) -> bool
    ensures { result ≡ list_all is_object places.now }
{
    places.iter().all(is_object)
}

fn have_keys(places: &[Place]) -> bool
    ensures { result ≡ list_all has_key places.now }
{
    places.iter().all(has_key)
}

fn has_object(places: &[Place]) -> bool
    ensures { result ≡ list_any is_object places.now }
{
    places.iter().any(is_object)
}

/// Whether something can be copied from the first place to the second.
fn is_transfer(recursive: bool, places: &[Place]) -> bool
    ensures { result ≡ (list_any is_object places.now && (recursive || first_is_single_source places.now)) }
{
    has_object(places) && (recursive || first_is_single_source(places))
}

/// Whether the places fit the command, where they are as many as it wants.
pub(crate) fn is_pair(verb: Verb, recursive: bool, places: &[Place]) -> bool
    ensures { result ≡ is_pair verb recursive places.now }
{
    match verb {
        Verb::Ls => are_objects(places),
        Verb::Presign => have_keys(places),
        Verb::Rm => are_objects(places) && (recursive || have_keys(places)),
        Verb::Sync => has_object(places),
        Verb::Cp | Verb::Mv => is_transfer(recursive, places),
    }
}

/// The first and the second of at most two places.
pub(crate) fn first_and_second(mut places: Vec<Place>) -> (Option<Place>, Option<Place>)
    requires { length places.items ≤ 2 }
    ensures first { result.0 ≡ first_of places.items }
    ensures second { result.1 ≡ second_of places.items }
{
    let second = if places.len() == 2 {
        places.pop()
    } else {
        None
    };
    (places.pop(), second)
}
