//! Whether a plan can be carried out.

ghost use Rattle.std.specs.Prelude.{
  ◌≡◌,
  ◌≢◌,
  ◌<◌,
  ◌≤◌,
  ℕ,
  List,
  None,
  Some,
  IfErr,
  IfOk,
  IfSome,
  IsTrue,
  OnOk,
  length,
  option_copied,
};
ghost use Rattle.s3_model.specs.Entries.{IsAscending};
ghost use Rattle.sync_plan.specs.Fit.{
  IsCommon,
  IsLeastCommon,
  IsJudged,
  is_too_large,
  key_order,
  object_key,
  place_text,
  read_keys,
  size_fault,
  written_keys,
};

use s3_model::{OutOfMemory, Place, PlanFault, Task, Text};
use std::alloc::Global;
use std::cmp::Ordering;

const MOST_TASKS: usize = 1_000_000;

fn place_text(alloc: Global, place: &Place) -> Result<Text, OutOfMemory>
    ensures { IfOk result (λ text. text ≡ place_text place.now) }
{
    match place {
        Place::Object { bucket, key } => {
            Text::joined(alloc, &["s3://", bucket.as_str(), "/", key.as_str()])
        }
        Place::File { path } => path.copy(),
    }
}

fn too_large(alloc: Global, source: &Place, size: u64) -> PlanFault
    ensures { result ≢ PlanFault.Memory → result ≡ PlanFault.TooLarge (place_text source.now) size }
{
    match place_text(alloc, source) {
        Ok(path) => PlanFault::TooLarge { path, size },
        Err(_) => PlanFault::Memory,
    }
}

fn check_size(alloc: Global, most: u64, task: &Task) -> Result<(), PlanFault>
    ensures ok { OnOk result (is_too_large most task.now task.now.source ≡ None) }
    ensures err { IfErr result (λ fault. fault ≢ PlanFault.Memory
        → is_too_large most task.now task.now.source ≡ Some fault) }
{
    match &task.source {
        Some(source) if task.size > most => Err(too_large(alloc, source, task.size)),
        _ => Ok(()),
    }
}

/// Refuses the first task that transfers more than `most` bytes.
fn check_sizes(alloc: Global, most: u64, tasks: &[Task]) -> Result<(), PlanFault>
    ensures ok { OnOk result (size_fault most tasks.now ≡ None) }
    ensures err { IfErr result (λ fault. fault ≢ PlanFault.Memory → size_fault most tasks.now ≡ Some fault) }
{
    for task in tasks {
        check_size(alloc, most, task)?;
    }
    Ok(())
}

fn object_key(place: &Place) -> Option<&Text>
    ensures { option_copied result ≡ object_key (Some place.now) }
{
    match place {
        Place::Object { key, .. } => Some(key),
        Place::File { .. } => None,
    }
}

fn read_key(task: &Task) -> Option<&Text>
    ensures { option_copied result ≡ object_key task.now.source }
{
    match &task.source {
        Some(source) => object_key(source),
        None => None,
    }
}

fn key_order(read: Option<&Text>, written: Option<&Text>) -> Ordering
    ensures { result ≡ key_order (option_copied read.entry) (option_copied written.entry) }
{
    match (read, written) {
        (Some(read), Some(written)) => read.as_str().cmp(written.as_str()),
        (Some(_), None) => Ordering::Greater,
        (None, _) => Ordering::Less,
    }
}

/// The least key that is both read and written. It goes over the keys of both once.
fn least_common(tasks: &[Task]) -> Option<&Text>
    requires read { IsAscending (read_keys tasks.now) }
    requires written { IsAscending (written_keys tasks.now) }
    ensures none { result ≡ None → (key : List ℕ) → ¬ (IsCommon tasks.now key) }
    ensures least { IfSome result (λ key. IsLeastCommon tasks.now key.now) }
{
    let mut readers = tasks;
    let mut writers = tasks;
    while let Some((reader, later)) = readers.split_first() {
        let Some((writer, rest)) = writers.split_first() else {
            return None;
        };
        let read = read_key(reader);
        match key_order(read, object_key(&writer.dest)) {
            Ordering::Less => readers = later,
            Ordering::Greater => writers = rest,
            Ordering::Equal => return read,
        }
    }
    None
}

fn check_common(tasks: &[Task]) -> Result<(), PlanFault>
    requires read { IsAscending (read_keys tasks.now) }
    requires written { IsAscending (written_keys tasks.now) }
    ensures ok { OnOk result ((key : List ℕ) → ¬ (IsCommon tasks.now key)) }
    ensures err { IfErr result (λ fault. fault ≢ PlanFault.Memory
        → (key : List ℕ) × (fault ≡ PlanFault.Overlap key) × IsLeastCommon tasks.now key) }
{
    match least_common(tasks) {
        Some(key) => match key.copy() {
            Ok(key) => Err(PlanFault::Overlap(key)),
            Err(_) => Err(PlanFault::Memory),
        },
        None => Ok(()),
    }
}

/// Refuses what can't be carried out. Where `one_bucket`, objects are read in the bucket in which they are written.
pub(crate) fn judge(
    alloc: Global,
    most: u64,
    one_bucket: bool,
    tasks: &[Task],
) -> Result<(), PlanFault>
    requires read { IsTrue one_bucket → IsAscending (read_keys tasks.now) }
    requires written { IsTrue one_bucket → IsAscending (written_keys tasks.now) }
    ensures sizes { OnOk result (size_fault most tasks.now ≡ None) }
    ensures common { OnOk result (IsTrue one_bucket → (key : List ℕ) → ¬ (IsCommon tasks.now key)) }
    ensures few { OnOk result (length tasks.now ≤ MOST_TASKS) }
    ensures refused { IfErr result (λ fault. fault ≢ PlanFault.Memory → IsJudged most one_bucket tasks.now fault) }
{
    check_sizes(alloc, most, tasks)?;
    if one_bucket {
        check_common(tasks)?;
    }
    if tasks.len() > MOST_TASKS {
        return Err(PlanFault::TooMany);
    }
    Ok(())
}
