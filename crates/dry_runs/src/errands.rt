//! From the words of a dry run to what it is to transfer or remove.

ghost use Rattle.std.specs.Prelude.{◌≡◌, IfOk};
ghost use Rattle.s3_model.specs.Places.{IsObject, key_at};
ghost use Rattle.upload_plans.specs.Commands.{CopiesUp};
ghost use Rattle.dry_runs.specs.Errands.{dest_key, prefix_of, removal_entry, removal_errand, upload_errand};

use s3_model::{Entry, Kind, Limits, OutOfMemory, Place, Text, ends_in_slash};
use s3_words::Command;
use std::alloc::Global;
use sync_plan::Errand;
use upload_plans::is_move;

/// A key as a prefix.
fn prefix_of(alloc: Global, key: Text) -> Result<Text, OutOfMemory>
    ensures { IfOk result (λ prefix. prefix ≡ prefix_of key) }
{
    if key.as_str().is_empty() || ends_in_slash(key.as_str()) {
        return Ok(key);
    }
    Text::joined(alloc, &[key.as_str(), "/"])
}

fn dest_key(alloc: Global, many: bool, key: Text) -> Result<Text, OutOfMemory>
    ensures { IfOk result (λ made. made ≡ dest_key many key) }
{
    if many { prefix_of(alloc, key) } else { Ok(key) }
}

/// What `cp` or `mv` of local files is to transfer.
pub(crate) fn upload_errand(
    alloc: Global,
    command: Command,
    limits: Limits,
) -> Result<Errand, OutOfMemory>
    requires { CopiesUp command }
    ensures { IfOk result (λ errand. errand ≡ upload_errand command limits) }
{
    let moves = is_move(command.verb);
    let Command {
        from,
        to,
        filters,
        recursive,
        times,
        content,
        guess,
        ..
    } = command;
    let (Some(from), Some(Place::Object { bucket, key })) = (from, to) else {
        unreachable!()
    };
    let key = dest_key(alloc, recursive, key)?;
    Ok(Errand {
        kind: Kind::Upload,
        moves,
        from,
        to: Some(Place::Object { bucket, key }),
        many: recursive,
        times,
        remove_extra: false,
        content,
        guess,
        fresh: false,
        filters,
        limits,
    })
}

/// What `rm` of one object is to remove.
pub(crate) fn removal_errand(command: Command, limits: Limits) -> Errand
    requires { IsObject command.from }
    ensures { result ≡ removal_errand command limits }
{
    let Command {
        from,
        filters,
        times,
        content,
        guess,
        ..
    } = command;
    let Some(from) = from else { unreachable!() };
    Errand {
        kind: Kind::RemoveObject,
        moves: false,
        from,
        to: None,
        many: false,
        times,
        remove_extra: false,
        content,
        guess,
        fresh: false,
        filters,
        limits,
    }
}

/// The object that `rm` is to remove.
pub(crate) fn removal_entry(alloc: Global, command: &Command) -> Result<Entry, OutOfMemory>
    requires { IsObject command.now.from }
    ensures { IfOk result (λ entry. entry ≡ removal_entry command.now) }
{
    let Some(Place::Object { key, .. }) = &command.from else {
        unreachable!()
    };
    Ok(Entry {
        key: key.copy()?,
        size: 0,
        etag: Text::of(alloc, "")?,
        micros: 0,
    })
}
