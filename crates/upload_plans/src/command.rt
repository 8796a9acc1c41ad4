//! Which commands are done by now, and the places that such a command names.

ghost use Rattle.std.specs.Prelude.{◌≡◌, None};
ghost use Rattle.upload_plans.specs.Commands.{
  CopiesUp,
  bucket_of,
  is_move,
  is_offline_dry_run,
  is_removal,
  is_unbuilt,
  is_unbuilt_copy,
  key_of,
  reads_object,
  removes_one,
  source_path,
  uploads,
};

use s3_model::{Place, Text};
use s3_words::{Command, Verb};

/// The local file of an upload, and the bucket and the key that its words name, as they are written.
#[derive(Clone, Copy)]
pub struct Places<'a> {
    pub path: &'a str,
    pub bucket: &'a str,
    pub key: &'a str,
}

fn reads_object(from: &Option<Place>) -> bool
    ensures { result ≡ reads_object from.now }
{
    matches!(from, Some(Place::Object { .. }))
}

/// Whether the command is `mv`.
pub fn is_move(verb: Verb) -> bool
    ensures { result ≡ is_move verb }
{
    matches!(verb, Verb::Mv)
}

/// Whether the command is `rm`.
pub fn is_removal(verb: Verb) -> bool
    ensures { result ≡ is_removal verb }
{
    matches!(verb, Verb::Rm)
}

fn uploads(command: &Command) -> bool
    ensures { result ≡ uploads command.now }
{
    (command.verb.is_copy() || is_move(command.verb)) && !reads_object(&command.from)
}

fn removes_one(command: &Command) -> bool
    ensures { result ≡ removes_one command.now }
{
    is_removal(command.verb) && !command.recursive
}

/// Whether the command is a dry run that has nothing to ask a service: of `cp` or `mv` from local files, or of `rm` for
/// one object.
pub fn is_offline_dry_run(command: &Command) -> bool
    ensures { result ≡ is_offline_dry_run command.now }
{
    command.mode.dryrun && (uploads(command) || removes_one(command))
}

fn is_unbuilt_copy(command: &Command) -> bool
    ensures { result ≡ is_unbuilt_copy command.now }
{
    reads_object(&command.from) || command.recursive || command.mode.dryrun
}

/// Whether the program does not do the command yet: it does `ls`, `presign`, `cp` of one local file, and dry runs that
/// have nothing to ask a service.
pub fn is_unbuilt(command: &Command) -> bool
    ensures { result ≡ is_unbuilt command.now }
{
    let shows = command.verb.is_presign() || command.verb.is_listing();
    let done = shows || is_offline_dry_run(command);
    !done && (!command.verb.is_copy() || is_unbuilt_copy(command))
}

/// The places of an upload.
pub fn places_of(command: &Command) -> Places<'_>
    requires { CopiesUp command.now }
    ensures path { result.path.now ≡ source_path command.now }
    ensures bucket { result.bucket.now ≡ bucket_of command.now }
    ensures key { result.key.now ≡ key_of command.now }
{
    let (Some(Place::File { path }), Some(Place::Object { bucket, key })) = (
        &command.from,
        &command.to,
    ) else {
        unreachable!()
    };
    Places {
        path: path.as_str(),
        bucket: bucket.as_str(),
        key: key.as_str(),
    }
}

/// The texts of these places.
#[derive(Drop)]
pub struct PlaceTexts {
    pub path: Text,
    pub bucket: Text,
    pub key: Text,
}

/// Takes the places out of the command of an upload; the rest of it stays.
pub(crate) fn take_places(command: &mut Command) -> PlaceTexts
    requires { CopiesUp command.old }
    ensures path { result.path ≡ source_path command.old }
    ensures bucket { result.bucket ≡ bucket_of command.old }
    ensures key { result.key ≡ key_of command.old }
    ensures rest { command.new ≡ record command.old { from = None; to = None } }
{
    let Some(Place::File { path }) = command.from.take() else {
        unreachable!()
    };
    let Some(Place::Object { bucket, key }) = command.to.take() else {
        unreachable!()
    };
    PlaceTexts { path, bucket, key }
}
