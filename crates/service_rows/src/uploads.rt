//! Uploads of one piece, and what carries them.

ghost use Rattle.std.specs.Prelude.{◌≡◌, ◌≤◌, [], IfOk};
ghost use Rattle.std.specs.Arc.{arc_value};
ghost use Rattle.small_uploads.specs.Uploading.{IsPutTask};

use crate::services::{keys, memory_endpoint};
use crate::texts::text;
use lane_jobs::Carrier;
use outside_memory::{FileTable, MemFile, MemFiles};
use s3_model::{Journal, Kind, OutOfMemory, Outcome, Place, Task};
use s3_outside::Wire;
use small_uploads::upload;
use std::alloc::Global;
use std::mem;
use std::sync::Arc;

/// The most attempts of a job.
const ATTEMPTS: u32 = 3;

/// The file that goes up.
const PATH: &str = "a.txt";

fn carrier(alloc: Global) -> Result<Carrier, OutOfMemory> {
    Carrier::make(alloc, memory_endpoint(alloc), keys(alloc), ATTEMPTS)
}

/// The task of an upload to an object.
pub(crate) fn put_task(
    alloc: Global,
    bucket: &str,
    key: &str,
    size: u64,
) -> Result<Arc<Task, Global>, OutOfMemory>
    ensures { IfOk result (λ task. IsPutTask (arc_value task)) }
{
    let task = Task {
        kind: Kind::Upload,
        moves: false,
        source: None,
        dest: Place::Object {
            bucket: text(alloc, bucket),
            key: text(alloc, key),
        },
        size,
        etag: text(alloc, ""),
        micros: 0,
        content: None,
        fresh: false,
    };
    match Arc::new(alloc, task) {
        Ok(shared) => Ok(shared),
        Err(failed) => {
            mem::drop(failed);
            Err(OutOfMemory)
        }
    }
}

/// A file with these bytes.
fn table_of(alloc: Global, bytes: &[u8]) -> Result<FileTable, OutOfMemory> {
    let file = MemFile::new(bytes.to_vec(alloc)?, 0);
    let mut table = FileTable::make(alloc);
    match table.put_file(alloc, PATH, file) {
        Ok(()) => Ok(table),
        Err(OutOfMemory) => {
            mem::drop(table);
            Err(OutOfMemory)
        }
    }
}

/// Files among which is one with these bytes.
fn files(alloc: Global, bytes: &[u8]) -> Result<MemFiles, OutOfMemory> {
    let table = table_of(alloc, bytes)?;
    Ok(MemFiles::make(alloc, table, Vec::new(alloc), Vec::new(alloc)))
}

/// What carries an upload: the files, the carrier of its job, and the journal of what it notes.
#[derive(Drop)]
pub(crate) struct Means {
    files: MemFiles,
    carrier: Carrier,
    pub journal: Journal,
}

/// What carries the upload of a file with these bytes.
pub(crate) fn make_means(alloc: Global, bytes: &[u8]) -> Result<Means, OutOfMemory>
    ensures { IfOk result (λ means. means.journal.items ≡ []) }
{
    let files = files(alloc, bytes)?;
    match carrier(alloc) {
        Ok(carrier) => Ok(Means {
            files,
            carrier,
            journal: Journal::make(alloc),
        }),
        Err(OutOfMemory) => {
            mem::drop(files);
            Err(OutOfMemory)
        }
    }
}

/// Carries the upload of a task by these means.
fn carry_by<W: Wire>(
    alloc: Global,
    wire: &mut W,
    means: &mut Means,
    task: Arc<Task, Global>,
    size: u64,
) -> Outcome
    requires put { IsPutTask (arc_value task) }
    requires empty { means.old.journal.items ≡ [] }
    requires room { 2 ≤ means.old.journal.spare }
{
    let (files, carrier) = (&mut means.files, &mut means.carrier);
    upload(
        alloc,
        files,
        wire,
        carrier,
        task,
        PATH,
        size,
        &mut means.journal,
    )
}

/// Carries the upload of bytes to an object by these means.
pub(crate) fn carry<W: Wire>(
    alloc: Global,
    wire: &mut W,
    means: &mut Means,
    bucket: &str,
    key: &str,
    bytes: &[u8],
) -> Result<Outcome, OutOfMemory>
    requires { means.old.journal.items ≡ [] }
{
    let size = bytes.len() as u64;
    means.journal.reserve(2)?;
    match put_task(alloc, bucket, key, size) {
        Ok(task) => Ok(carry_by(alloc, wire, means, task, size)),
        Err(OutOfMemory) => Err(OutOfMemory),
    }
}
