//! Calls that change files in memory, or count a fault.

ghost use Rattle.std.specs.Prelude.{◌≡◌, ◌≢◌, ◌≤◌, Ok, Err, Some, None, IfSome, IfOk, IfErr, OnOk, IsSome, is_ok};
ghost use Rattle.std.specs.FinMap.{get};
ghost use Rattle.s3_model.specs.Counts.{HasCause};
ghost use Rattle.local_files.specs.Calls.{DropTemp, MakeTemp, Remove, Rename, Stamp, WriteAt};
ghost use Rattle.local_files.specs.Changes.{Changes, IsFree};
ghost use Rattle.s3_outside.specs.Files.{shape_at};
ghost use Rattle.s3_outside.specs.FileCalls.{
  HasObstacle,
  HasRisen,
  IsTempPath,
  NamesFront,
  path_of,
  result_of,
  why_not,
};

use crate::table_calls::shape_in;
use file_table::{FileTable, MemFile};
use s3_model::Text;
use s3_outside::{Failed, FileFault, Shape, Temp, blocked, count_fault, fault, temp_path};
use std::alloc::Global;

/// Makes a temporary file beside a destination, with the next number that is free.
#[tactic(auto, using(crate::proofs::MadeLemmas::made_temp, crate::proofs::MadeLemmas::unmade))]
pub(crate) fn make_in(
    table: &mut FileTable,
    drawn: &mut u32,
    faults: &mut u64,
    alloc: Global,
    is_failing: bool,
    dest: &str,
) -> Result<Temp, FileFault>
    ensures changes { Changes (MakeTemp dest.now (result_of (path_of result))) table.old table.new }
    ensures path { IfOk result (λ temp. IsTempPath dest.now temp.path) }
    ensures apart { IfOk result (λ temp. temp.path ≢ dest.now) }
    ensures absent { IfOk result (λ temp. shape_at table.old temp.path ≡ Shape.Absent) }
    ensures front { IfErr result (NamesFront dest.now) }
    ensures way { IfErr result (HasObstacle table.old dest.now) }
    ensures free { OnOk result (IsFree table.old dest.now) }
    ensures kept { OnOk result (shape_at table.old dest.now ≢ Shape.Other) }
    ensures later { faults.old ≤ faults.new }
    ensures failed { IfErr result (HasRisen faults.old faults.new) }
{
    if is_failing || shape_in(table, dest) == Shape::Other {
        return Err(fault(faults));
    }
    if let Some(length) = table.obstacle(dest) {
        return Err(blocked(length, faults));
    }
    let Some(path) = draw(table, drawn, alloc, dest)? else {
        return Err(fault(faults));
    };
    match table.put_file(alloc, path.as_str(), MemFile::empty(alloc)) {
        Ok(()) => Ok(Temp { path }),
        Err(_) => Err(FileFault::Memory),
    }
}

// The next path at which nothing stands, and which is not the destination's. None where all numbers are taken.
fn draw(
    table: &FileTable,
    drawn: &mut u32,
    alloc: Global,
    dest: &str,
) -> Result<Option<Text>, FileFault>
    ensures path { IfOk result (λ found. IfSome found (IsTempPath dest.now)) }
    ensures apart { IfOk result (λ found. IfSome found (λ path. path ≢ dest.now)) }
    ensures absent { IfOk result (λ found. IfSome found (λ path. shape_at table.now path ≡ Shape.Absent)) }
    ensures memory { IfErr result (λ fault. fault ≡ FileFault.Memory) }
{
    for _ in 0..u32::MAX {
        let Ok(path) = temp_path(alloc, dest, *drawn) else {
            return Err(FileFault::Memory);
        };
        *drawn = drawn.wrapping_add(1);
        if path.as_str() != dest && shape_in(table, path.as_str()) == Shape::Absent {
            return Ok(Some(path));
        }
    }
    Ok(None)
}

/// Writes bytes into a file.
#[tactic(auto, using(crate::proofs::MadeLemmas::unwritten))]
pub(crate) fn write_in(
    table: &mut FileTable,
    faults: &mut u64,
    alloc: Global,
    is_failing: bool,
    path: &str,
    at: u64,
    bytes: &[u8],
) -> Result<(), Failed>
    ensures changes { Changes (WriteAt path.now at bytes.now (is_ok result)) table.old table.new }
    ensures cause { HasCause faults.old faults.new result }
{
    if is_failing {
        return Err(count_fault(faults));
    }
    match table.write(alloc, path, at, bytes) {
        Ok(()) => Ok(()),
        Err(_) => Err(count_fault(faults)),
    }
}

/// Puts a temporary file in the place of its destination.
#[tactic(auto, using(crate::proofs::MadeLemmas::unrenamed, crate::proofs::MadeLemmas::alike_unrenamed))]
pub(crate) fn rename_in(
    table: &mut FileTable,
    faults: &mut u64,
    alloc: Global,
    is_failing: bool,
    temp: &str,
    dest: &str,
) -> Result<(), FileFault>
    ensures changes { Changes (Rename temp.now dest.now (why_not result)) table.old table.new }
    ensures memory { IfErr result (λ fault. fault ≢ FileFault.Memory) }
    ensures front { IfErr result (NamesFront dest.now) }
    ensures way { IfErr result (HasObstacle table.old dest.now) }
    ensures free { OnOk result (IsFree table.old dest.now) }
    ensures kept { OnOk result (shape_at table.old dest.now ≢ Shape.Other) }
    ensures later { faults.old ≤ faults.new }
    ensures failed { IfErr result (HasRisen faults.old faults.new) }
{
    if is_failing || shape_in(table, dest) == Shape::Other {
        return Err(fault(faults));
    }
    if let Some(length) = table.obstacle(dest) {
        return Err(blocked(length, faults));
    }
    match table.rename(alloc, temp, dest) {
        Ok(()) => Ok(()),
        Err(_) => Err(fault(faults)),
    }
}

/// Takes a file away.
#[tactic(auto, using(crate::proofs::MadeLemmas::alike_unremoved, crate::proofs::MadeLemmas::alike_undropped))]
pub(crate) fn remove_in(
    table: &mut FileTable,
    faults: &mut u64,
    alloc: Global,
    is_failing: bool,
    path: &str,
) -> Result<(), Failed>
    ensures removes { Changes (Remove path.now (is_ok result)) table.old table.new }
    ensures drops { Changes (DropTemp path.now (is_ok result)) table.old table.new }
    ensures there { OnOk result (IsSome (get table.old.held path.now)) }
    ensures cause { HasCause faults.old faults.new result }
{
    if is_failing {
        return Err(count_fault(faults));
    }
    match table.remove(alloc, path) {
        Ok(()) => Ok(()),
        Err(_) => Err(count_fault(faults)),
    }
}

/// Sets the time of a file.
#[tactic(auto, using(crate::proofs::MadeLemmas::unstamped))]
pub(crate) fn stamp_in(
    table: &mut FileTable,
    faults: &mut u64,
    alloc: Global,
    is_failing: bool,
    path: &str,
    micros: u64,
) -> Result<(), Failed>
    ensures changes { Changes (Stamp path.now micros (is_ok result)) table.old table.new }
    ensures cause { HasCause faults.old faults.new result }
{
    if is_failing {
        return Err(count_fault(faults));
    }
    match table.stamp(alloc, path, micros) {
        Ok(()) => Ok(()),
        Err(_) => Err(count_fault(faults)),
    }
}
