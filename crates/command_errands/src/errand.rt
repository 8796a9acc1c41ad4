//! The errand of a command.

ghost use Rattle.std.specs.Prelude.{◌≡◌, true, IfOk, Some, option_map};
ghost use Rattle.sync_plan.specs.Errands.{RemovesFrom, TransfersBetween};
ghost use Rattle.s3_words.specs.Options.{transfers};
ghost use Rattle.command_errands.specs.Errands.{
  TakesPlaces,
  dest_of,
  errand_of,
  is_many,
  is_move,
  kind_of,
  removes,
  source_of,
  without_errand,
};

use crate::ends::{dest_of, source_of};
use path_filters::Filters;
use s3_model::{Kind, Limits, OutOfMemory, Place, Text};
use s3_words::{Command, Verb};
use std::alloc::Global;
use std::mem;
use sync_plan::Errand;

fn is_move(verb: Verb) -> bool
    ensures { result ≡ is_move verb }
{
    matches!(verb, Verb::Mv)
}

/// Whether there may be many names below the command's places: under `--recursive`, and for `sync`.
pub fn is_many(command: &Command) -> bool
    ensures { result ≡ is_many command.now }
{
    command.recursive || matches!(command.verb, Verb::Sync)
}

fn kind_of(from: &Place, to: &Option<Place>) -> Kind
    ensures { result ≡ kind_of from.now to.now }
{
    match (from, to) {
        (_, None) => Kind::RemoveObject,
        (Place::File { .. }, Some(_)) => Kind::Upload,
        (Place::Object { .. }, Some(Place::File { .. })) => Kind::Download,
        (Place::Object { .. }, Some(Place::Object { .. })) => Kind::Copy,
    }
}

/// The two places of an errand.
struct Ends {
    from: Place,
    to: Option<Place>,
}

fn dest_option(
    alloc: Global,
    many: bool,
    into_folder: bool,
    to: Option<Place>,
) -> Result<Option<Place>, OutOfMemory>
    ensures { IfOk result (λ dest. dest ≡ option_map (dest_of many into_folder) to) }
{
    match to {
        Some(to) => Ok(Some(dest_of(alloc, many, into_folder, to)?)),
        None => Ok(None),
    }
}

fn ends_of(
    alloc: Global,
    many: bool,
    into_folder: bool,
    from: Place,
    to: Option<Place>,
) -> Result<Ends, OutOfMemory>
    ensures from { IfOk result (λ ends. ends.from ≡ source_of many from) }
    ensures to { IfOk result (λ ends. ends.to ≡ option_map (dest_of many into_folder) to) }
{
    let to = dest_option(alloc, many, into_folder, to)?;
    match source_of(alloc, many, from) {
        Ok(from) => Ok(Ends { from, to }),
        Err(OutOfMemory) => {
            mem::drop(to);
            Err(OutOfMemory)
        }
    }
}

/// What an errand takes over from its command.
struct Parts {
    from: Place,
    to: Option<Place>,
    filters: Filters,
    content: Option<Text>,
}

/// Takes these out of the command; the rest of it stays.
fn take_parts(alloc: Global, command: &mut Command) -> Parts
    requires places { TakesPlaces command.old.verb command.old.from command.old.to }
    ensures from { Some result.from ≡ command.old.from }
    ensures to { result.to ≡ command.old.to }
    ensures filters { result.filters ≡ command.old.filters }
    ensures content { result.content ≡ command.old.content }
    ensures rest { command.new ≡ without_errand command.old }
{
    let Some(from) = command.from.take() else {
        unreachable!()
    };
    Parts {
        from,
        to: command.to.take(),
        filters: mem::replace(&mut command.filters, Filters::make(alloc)),
        content: command.content.take(),
    }
}

/// What a command is to transfer or remove. `into_folder` says that the destination of one download is a folder that
/// exists; the name of the source is then put into it. The errand takes over the command's places, filters and content
/// type, which the command has no more, whether memory runs out or not; the rest of the command stays.
///
/// Under `--recursive`, and for `sync`, there may be many names, and a key that is not empty gets a final `/` if it has
/// none. `mv` removes each source once its transfer is done (AWS CLI Command Reference, `s3`).
pub fn take_errand(
    alloc: Global,
    command: &mut Command,
    limits: &Limits,
    into_folder: bool,
) -> Result<Errand, OutOfMemory>
    requires places { TakesPlaces command.old.verb command.old.from command.old.to }
    ensures errand { IfOk result (λ errand. errand_of command.old limits.now into_folder ≡ Some errand) }
    ensures transfers { IfOk result (λ errand. transfers command.old.verb ≡ true
        → TransfersBetween errand.kind errand.from errand.to) }
    ensures removes { IfOk result (λ errand. removes command.old.verb ≡ true
        → RemovesFrom errand.kind errand.from errand.to) }
    ensures rest { command.new ≡ without_errand command.old }
{
    let many = is_many(command);
    let Parts {
        from,
        to,
        filters,
        content,
    } = take_parts(alloc, command);
    match ends_of(alloc, many, into_folder, from, to) {
        Ok(Ends { from, to }) => Ok(Errand {
            kind: kind_of(&from, &to),
            moves: is_move(command.verb),
            from,
            to,
            many,
            times: command.times,
            remove_extra: command.remove_extra,
            content,
            guess: command.guess,
            fresh: false,
            filters,
            limits: *limits,
        }),
        Err(OutOfMemory) => {
            mem::drop(filters);
            mem::drop(content);
            Err(OutOfMemory)
        }
    }
}
