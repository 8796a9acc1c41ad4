//! The names of two sides, one path after the other.

ghost use Rattle.std.specs.Prelude.{◌≡◌, ◌∷◌, ◌<◌, [], None, IfSome, length};
ghost use Rattle.sync_plan.specs.Errands.{names_of};
ghost use Rattle.sync_plan.specs.Sides.{IsShorter, IsTurnOf};

use crate::names::{First, first_of};
use s3_model::{Entry, Place};
use std::cmp::Ordering;

/// What stands at the least path of both sides, and what is left behind it; nothing stands in place of a folder marker.
#[derive(Clone, Copy)]
pub(crate) struct Turn<'a> {
    pub path: &'a str,
    pub ours: Option<&'a Entry>,
    pub theirs: Option<&'a Entry>,
    pub source: &'a [Entry],
    pub dest: &'a [Entry],
}

fn marker_turn<'a>(source: &'a [Entry], dest: &'a [Entry]) -> Turn<'a>
    ensures path { result.path.now ≡ [] }
    ensures ours { result.ours ≡ None }
    ensures theirs { result.theirs ≡ None }
    ensures source { result.source.now ≡ source.now }
    ensures dest { result.dest.now ≡ dest.now }
{
    Turn {
        path: "",
        ours: None,
        theirs: None,
        source,
        dest,
    }
}

/// The turn where the source is at its end.
fn their_turn<'a>(
    from: &'a Place,
    to: &'a Place,
    many: bool,
    source: &'a [Entry],
    dest: &'a [Entry],
) -> Option<Turn<'a>>
    requires { names_of from.now many source.now ≡ [] }
    ensures end { result ≡ None → names_of to.now many dest.now ≡ [] }
    ensures turn { IfSome result (IsTurnOf from.now to.now many source.now dest.now) }
    ensures shorter { IfSome result (IsShorter source.now dest.now) }
{
    match first_of(to, many, dest) {
        First::End => None,
        First::Marker { later } => Some(marker_turn(source, later)),
        First::Name { path, entry, later } => Some(Turn {
            path,
            ours: None,
            theirs: Some(entry),
            source,
            dest: later,
        }),
    }
}

/// The least path of the two sides; both entries where it is the same.
pub(crate) fn next_turn<'a>(
    from: &'a Place,
    to: &'a Place,
    many: bool,
    source: &'a [Entry],
    dest: &'a [Entry],
) -> Option<Turn<'a>>
    ensures source_end { result ≡ None → names_of from.now many source.now ≡ [] }
    ensures dest_end { result ≡ None → names_of to.now many dest.now ≡ [] }
    ensures turn { IfSome result (IsTurnOf from.now to.now many source.now dest.now) }
    ensures shorter { IfSome result (IsShorter source.now dest.now) }
{
    match first_of(from, many, source) {
        First::End => their_turn(from, to, many, source, dest),
        First::Marker { later } => Some(marker_turn(later, dest)),
        First::Name { path, entry, later } => Some(our_turn(
            from, to, many, path, entry, later, source, dest,
        )),
    }
}

/// The turn where the source has a name.
fn our_turn<'a>(
    from: &'a Place,
    to: &'a Place,
    many: bool,
    path: &'a str,
    entry: &'a Entry,
    later: &'a [Entry],
    source: &'a [Entry],
    dest: &'a [Entry],
) -> Turn<'a>
    requires first { names_of from.now many source.now ≡ (path.now, entry.now) ∷ names_of from.now many later.now }
    requires shorter { length later.now < length source.now }
    ensures turn { IsTurnOf from.now to.now many source.now dest.now result }
    ensures shorter { IsShorter source.now dest.now result }
{
    match first_of(to, many, dest) {
        First::End => Turn {
            path,
            ours: Some(entry),
            theirs: None,
            source: later,
            dest,
        },
        First::Marker { later: rest } => marker_turn(source, rest),
        First::Name {
            path: other_path,
            entry: other,
            later: rest,
        } => match path.cmp(other_path) {
            Ordering::Less => Turn {
                path,
                ours: Some(entry),
                theirs: None,
                source: later,
                dest,
            },
            Ordering::Equal => Turn {
                path,
                ours: Some(entry),
                theirs: Some(other),
                source: later,
                dest: rest,
            },
            Ordering::Greater => Turn {
                path: other_path,
                ours: None,
                theirs: Some(other),
                source,
                dest: rest,
            },
        },
    }
}
