//! The plan of one local file that is to become an object.

ghost use Rattle.std.specs.Prelude.{◌≡◌, ◌≢◌, false, IfErr, IfOk, None, OnOk, Some};
ghost use Rattle.std.specs.Str.{chars};
ghost use Rattle.path_filters.specs.Filters.{is_kept};
ghost use Rattle.s3_model.specs.ContentTypes.{content_type_of, last_name};
ghost use Rattle.s3_paths.specs.Names.{key_skip};
ghost use Rattle.upload_plans.specs.Commands.{CopiesUp, bucket_of, key_of, source_path};
ghost use Rattle.upload_plans.specs.Plans.{
  HasNoMemory,
  content_for,
  fate_of,
  file_fate,
  kept_fate,
  planned_key,
  planned_task,
  takes_name,
  task_fate,
};

use crate::command::{PlaceTexts, take_places};
use path_names::last_name;
use s3_model::{
    KeySkip, Kind, OutOfMemory, Place, PlanFault, Task, Text, content_of, ends_in_slash,
};
use s3_outside::Shape;
use s3_words::Command;
use std::alloc::Global;

/// In bytes.
const LONGEST_KEY: usize = 1024;

/// What copying one local file up comes to.
#[derive(Drop)]
pub enum Fate {
    /// The program does not do this yet.
    NotYet,
    Refused(PlanFault),
    /// Something else than a file or a folder stands at the path.
    NotAFile(Text),
    /// Its key cannot be written.
    Skipped { place: Place, why: KeySkip },
    /// A filter leaves it out.
    LeftOut,
    Upload(Task),
}

fn takes_name(key: &str) -> bool
    ensures { result ≡ takes_name key.now }
{
    key.is_empty() || ends_in_slash(key)
}

/// A key that is no prefix, taken over.
fn whole_key(key: Text) -> Result<Text, KeySkip>
    requires { takes_name key ≡ false }
    ensures kept { OnOk result (key_skip key ≡ None) }
    ensures key { IfOk result (λ whole. whole ≡ key) }
    ensures skip { IfErr result (λ skip. key_skip key ≡ Some skip) }
{
    let size = key.as_str().len();
    if size > LONGEST_KEY {
        Err(KeySkip::LongKey(size))
    } else {
        Ok(key)
    }
}

/// The key of the object: behind a prefix the file's name is put, and any other key is taken over.
fn planned_key(alloc: Global, path: &str, key: Text) -> Result<Text, KeySkip>
    ensures kept { OnOk result (key_skip (planned_key path.now key) ≡ None) }
    ensures key { IfOk result (λ made. made ≡ planned_key path.now key) }
    ensures skip { IfErr result
        (λ skip. skip ≢ KeySkip.Memory → key_skip (planned_key path.now key) ≡ Some skip) }
{
    if takes_name(key.as_str()) {
        s3_paths::key_of(alloc, key.as_str(), last_name(path))
    } else {
        whole_key(key)
    }
}

fn guessed(alloc: Global, path: &str) -> Result<Option<Text>, OutOfMemory>
    ensures { IfOk result (λ content. content ≡ content_type_of path.now) }
{
    match content_of(path) {
        Some(content) => Ok(Some(Text::of(alloc, content)?)),
        None => Ok(None),
    }
}

/// The content type of the object; the command's is taken out of it.
fn content_for(
    alloc: Global,
    command: &mut Command,
    path: &str,
) -> Result<Option<Text>, OutOfMemory>
    ensures content { IfOk result (λ content. content ≡ content_for command.old path.now) }
    ensures endpoint { command.new.endpoint ≡ command.old.endpoint }
{
    match command.content.take() {
        Some(content) => Ok(Some(content)),
        None if command.guess => guessed(alloc, path),
        None => Ok(None),
    }
}

fn planned_task(
    alloc: Global,
    command: &mut Command,
    path: Text,
    bucket: Text,
    key: Text,
    size: u64,
    micros: u64,
) -> Result<Task, OutOfMemory>
    ensures task { IfOk result (λ task. task ≡ planned_task command.old path bucket key size micros) }
    ensures endpoint { command.new.endpoint ≡ command.old.endpoint }
{
    let etag = Text::of(alloc, "")?;
    let content = content_for(alloc, command, path.as_str())?;
    Ok(Task {
        kind: Kind::Upload,
        moves: false,
        source: Some(Place::File { path }),
        dest: Place::Object { bucket, key },
        size,
        etag,
        micros,
        content,
        fresh: false,
    })
}

/// A file that the filters keep, and whose key can be written.
fn task_fate(
    alloc: Global,
    command: &mut Command,
    path: Text,
    bucket: Text,
    key: Text,
    size: u64,
    micros: u64,
    max_object: u64,
) -> Result<Fate, OutOfMemory>
    ensures memory { IfOk result HasNoMemory }
    ensures fate { IfOk result (λ fate. fate ≡ task_fate command.old path bucket key max_object size micros) }
    ensures endpoint { command.new.endpoint ≡ command.old.endpoint }
{
    if size > max_object {
        return Ok(Fate::Refused(PlanFault::TooLarge { path, size }));
    }
    let task = planned_task(alloc, command, path, bucket, key, size, micros)?;
    Ok(Fate::Upload(task))
}

/// A file that the filters keep.
fn kept_fate(
    alloc: Global,
    command: &mut Command,
    texts: PlaceTexts,
    size: u64,
    micros: u64,
    max_object: u64,
) -> Result<Fate, OutOfMemory>
    ensures memory { IfOk result HasNoMemory }
    ensures fate { IfOk result (λ fate. fate ≡
        kept_fate command.old texts.path texts.bucket texts.key max_object size micros) }
    ensures endpoint { command.new.endpoint ≡ command.old.endpoint }
{
    let PlaceTexts { path, bucket, key } = texts;
    match planned_key(alloc, path.as_str(), key) {
        Ok(key) => task_fate(alloc, command, path, bucket, key, size, micros, max_object),
        Err(KeySkip::Memory) => Err(OutOfMemory),
        Err(why) => Ok(Fate::Skipped {
            place: Place::File { path },
            why,
        }),
    }
}

fn file_fate(
    alloc: Global,
    command: &mut Command,
    texts: PlaceTexts,
    size: u64,
    micros: u64,
    max_object: u64,
) -> Result<Fate, OutOfMemory>
    ensures memory { IfOk result HasNoMemory }
    ensures fate { IfOk result (λ fate. fate ≡
        file_fate command.old texts.path texts.bucket texts.key max_object size micros) }
    ensures endpoint { command.new.endpoint ≡ command.old.endpoint }
{
    if command.filters.keeps(last_name(texts.path.as_str())) {
        kept_fate(alloc, command, texts, size, micros, max_object)
    } else {
        Ok(Fate::LeftOut)
    }
}

/// What copying the file of a command up comes to, by what stands at its path. `threshold` and `max_object` are in
/// bytes: from the first on a file goes up in parts, and above the other no object is stored. What it comes to takes
/// over the command's paths and its content type, which the command has no more; its endpoint stays.
///
/// A destination key that is empty or ends in `/` gets the file's name (AWS CLI Command Reference, `s3 cp`). The last
/// filter that matches that name decides whether the file is copied. The content type is the command's, else that of
/// the name's extension.
pub fn plan_upload(
    alloc: Global,
    command: &mut Command,
    shape: Shape,
    threshold: u64,
    max_object: u64,
) -> Result<Fate, OutOfMemory>
    requires { CopiesUp command.old }
    ensures fate { IfOk result (λ fate. fate ≡ fate_of command.old threshold max_object shape) }
    ensures memory { IfOk result HasNoMemory }
    ensures endpoint { command.new.endpoint ≡ command.old.endpoint }
{
    let texts = take_places(command);
    match shape {
        Shape::File { size, .. } if size >= threshold => Ok(Fate::NotYet),
        Shape::File { size, micros } => file_fate(alloc, command, texts, size, micros, max_object),
        Shape::Absent => Ok(Fate::Refused(PlanFault::NoSource(texts.path))),
        Shape::Folder => Ok(Fate::Refused(PlanFault::IsFolder(texts.path))),
        Shape::Other => Ok(Fate::NotAFile(texts.path)),
    }
}
