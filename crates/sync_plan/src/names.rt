//! The names of one side of a plan: relative paths, with what stands there.

ghost use Rattle.std.specs.Prelude.{◌≡◌, ◌<◌};
ghost use Rattle.s3_model.specs.ContentTypes.{last_name};
ghost use Rattle.sync_plan.specs.Errands.{behind, behind_prefix, is_marker, relative, text_of};
ghost use Rattle.sync_plan.specs.Sides.{IsFirst};

use s3_model::{Entry, Place, ends_in_slash};

/// What follows the last `/`, or the whole path.
fn last_name(path: &str) -> &str
    ensures { result.now ≡ last_name path.now }
{
    match path.rsplit_once('/') {
        Some((_, name)) => name,
        None => path,
    }
}

fn is_marker(entry: &Entry) -> bool
    ensures { result ≡ is_marker entry.now }
{
    ends_in_slash(entry.key.as_str()) && entry.size == 0
}

fn text_of(place: &Place) -> &str
    ensures { result.now ≡ text_of place.now }
{
    match place {
        Place::Object { key, .. } => key.as_str(),
        Place::File { path } => path.as_str(),
    }
}

fn behind_prefix<'a>(prefix: &str, key: &'a str) -> &'a str
    ensures { result.now ≡ behind_prefix prefix.now key.now }
{
    match key.strip_prefix(prefix) {
        Some(rest) => rest,
        None => "",
    }
}

fn behind<'a>(place: &Place, key: &'a str) -> &'a str
    ensures { result.now ≡ behind place.now key.now }
{
    match place {
        Place::Object { key: prefix, .. } => behind_prefix(prefix.as_str(), key),
        Place::File { .. } => key,
    }
}

/// The relative path of an entry of a place.
pub(crate) fn relative<'a>(place: &'a Place, many: bool, entry: &'a Entry) -> &'a str
    ensures { result.now ≡ relative place.now many entry.now }
{
    if many {
        behind(place, entry.key.as_str())
    } else {
        last_name(text_of(place))
    }
}

/// What stands first in a list of entries: a folder marker, or a name.
#[derive(Clone, Copy)]
pub(crate) enum First<'a> {
    End,
    Marker {
        later: &'a [Entry],
    },
    Name {
        path: &'a str,
        entry: &'a Entry,
        later: &'a [Entry],
    },
}

pub(crate) fn first_of<'a>(place: &'a Place, many: bool, entries: &'a [Entry]) -> First<'a>
    ensures { IsFirst place.now many entries.now result }
{
    let Some((entry, later)) = entries.split_first() else {
        return First::End;
    };
    if is_marker(entry) {
        First::Marker { later }
    } else {
        First::Name {
            path: relative(place, many, entry),
            entry,
            later,
        }
    }
}
