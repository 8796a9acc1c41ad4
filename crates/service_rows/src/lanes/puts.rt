//! Puts of small objects over a lane.

ghost use Rattle.std.specs.Prelude.{IfOk};
ghost use Rattle.std.specs.Arc.{arc_value};
ghost use Rattle.small_uploads.specs.Uploading.{IsPutTask};

use crate::services::{endpoint, keys, service_with_bucket, wire_to};
use crate::uploads::put_task;
use jobs::{Carried, Ending, Job, What};
use lane_jobs::Lane;
use s3_fakes::MemWire;
use s3_model::{Bytes, JobId, Op, OutOfMemory, Part, Task};
use s3_outside::Wire;
use s3_signing::HexHash;
use std::alloc::{AllocError, Global};
use std::mem;
use std::sync::{Arc, Wait};

/// The bytes of each object.
pub(crate) const HELLO: &[u8; 5] = b"hello";

/// How many these are.
const SIZE: u64 = 5;

/// A lane to a service, over this wire.
pub(crate) fn lane_to<W: Wire + Drop>(
    alloc: Global,
    wire: W,
    host: &str,
    port: u16,
) -> Result<Lane<W>, OutOfMemory> {
    let endpoint = endpoint(alloc, host, port);
    let keys = keys(alloc);
    let lane = Lane::make(alloc, wire, &endpoint, &keys, 1);
    mem::drop(keys);
    mem::drop(endpoint);
    match lane {
        Ok(lane) => Ok(lane),
        Err(wire) => {
            mem::drop(wire);
            Err(OutOfMemory)
        }
    }
}

/// The task that puts the bytes to the object of a number.
fn task_of(alloc: Global, bucket: &str, number: u32) -> Result<Arc<Task, Global>, OutOfMemory>
    ensures { IfOk result (λ task. IsPutTask (arc_value task)) }
{
    let key = format!(in alloc; "small/{number}")?;
    put_task(alloc, bucket, key.as_str(), SIZE)
}

/// The Put of a task.
fn job_of(task: Arc<Task, Global>, size: u64, bytes: Bytes) -> Job
    requires { IsPutTask (arc_value task) }
{
    Job {
        id: JobId {
            task: Some(0),
            op: Op::Put,
            number: 0,
        },
        what: What::Step {
            task,
            range: (0, size),
            upload: None,
            etags: None,
        },
        part: Some(Part { bytes }),
        hash: None,
        cell: None,
        had: 0,
    }
}

/// The part of each Put.
fn hello(alloc: Global) -> Result<Bytes, OutOfMemory> {
    let mut bytes = Bytes::make(alloc, SIZE)?;
    bytes.add(HELLO);
    Ok(bytes)
}

/// The Put of one object.
fn put_job(alloc: Global, bucket: &str, number: u32) -> Result<Job, OutOfMemory> {
    let bytes = hello(alloc)?;
    match task_of(alloc, bucket, number) {
        Ok(task) => Ok(job_of(task, SIZE, bytes)),
        Err(OutOfMemory) => {
            mem::drop(bytes);
            Err(OutOfMemory)
        }
    }
}

fn is_stored(carried: &Carried) -> bool {
    matches!(carried.ending, Ending::Gained(_))
}

/// Carries a Put; whether it was stored.
fn carry_put<W: Wire + Drop>(lane: &mut Lane<W>, job: Job) -> bool {
    let carried = lane.carry(job);
    let is_stored = is_stored(&carried);
    mem::drop(carried);
    is_stored
}

/// Puts one object; whether it was stored.
fn put<W: Wire + Drop>(alloc: Global, lane: &mut Lane<W>, bucket: &str, number: u32) -> bool {
    match put_job(alloc, bucket, number) {
        Ok(job) => carry_put(lane, job),
        Err(OutOfMemory) => false,
    }
}

/// The job that was carried.
fn job_back(carried: Carried) -> Job {
    let Carried { job, tries, ending } = carried;
    mem::drop(tries);
    mem::drop(ending);
    job
}

fn hash_shown(hash: &Option<HexHash>) -> &str {
    match hash {
        Some(hash) => hash.as_str(),
        None => "no hash",
    }
}

/// The hash with which a job came back that was given again, and whether it was stored then.
fn again_shown(alloc: Global, carried: &Carried) -> Result<String, AllocError> {
    let hash = hash_shown(&carried.job.hash);
    let how = if is_stored(carried) {
        "stored"
    } else {
        "not stored"
    };
    format!(in alloc; "{hash} given again: {how}")
}

/// Carries a job twice, and says what came of it then.
fn carry_twice<W: Wire + Drop>(
    alloc: Global,
    lane: &mut Lane<W>,
    job: Job,
) -> Result<String, AllocError> {
    let back = job_back(lane.carry(job));
    let carried = lane.carry(back);
    let again = again_shown(alloc, &carried);
    mem::drop(carried);
    again
}

/// Puts one object, and says what comes of its job when it is given again.
fn put_again<W: Wire + Drop>(
    alloc: Global,
    lane: &mut Lane<W>,
    bucket: &str,
    number: u32,
) -> Result<String, AllocError> {
    match put_job(alloc, bucket, number) {
        Ok(job) => carry_twice(alloc, lane, job),
        Err(OutOfMemory) => Err(AllocError),
    }
}

/// Puts that many objects, each under a key of its own; how many were stored.
pub(crate) fn put_each<W: Wire + Drop>(
    alloc: Global,
    lane: &mut Lane<W>,
    bucket: &str,
    count: u32,
) -> u32 {
    let mut stored: u32 = 0;
    for number in 0..count {
        if put(alloc, lane, bucket, number) {
            stored = stored.saturating_add(1);
        }
    }
    stored
}

/// How many go to the service in memory.
const FEW: u32 = 20;

/// A lane to a service in memory with one bucket.
fn lane_to_memory<R: Wait + Clone + Drop>(
    rt: &R,
    alloc: Global,
) -> Result<Lane<MemWire<R>>, OutOfMemory> {
    let table = service_with_bucket(alloc)?;
    let wire = wire_to(alloc, rt, &table);
    mem::drop(table);
    match wire {
        Ok(wire) => lane_to(alloc, wire, "localhost", 9000),
        Err(OutOfMemory) => Err(OutOfMemory),
    }
}

fn lines(alloc: Global, stored: u32, opened: u32, again: &str) -> Result<String, AllocError> {
    format!(in alloc; "{stored} stored, {opened} opened\n{again}")
}

/// How many connections a lane has opened.
fn opened_over<R: Wait + Clone + Drop>(lane: Lane<MemWire<R>>) -> u32 {
    let wire = lane.wire();
    let opened = wire.opened();
    mem::drop(wire);
    opened
}

/// Puts objects over a lane, then one whose job is given again, and says what came of them.
fn few_over<R: Wait + Clone + Drop>(
    alloc: Global,
    mut lane: Lane<MemWire<R>>,
) -> Result<String, AllocError> {
    let stored = put_each(alloc, &mut lane, "b", FEW);
    let again = put_again(alloc, &mut lane, "b", FEW);
    let opened = opened_over(lane);
    let again = again?;
    lines(alloc, stored, opened, again.as_str())
}

/// Puts objects into a service in memory, and says what came of them.
pub(crate) fn few_shown<R: Wait + Clone + Drop>(
    rt: &R,
    alloc: Global,
) -> Result<String, AllocError> {
    match lane_to_memory(rt, alloc) {
        Ok(lane) => few_over(alloc, lane),
        Err(OutOfMemory) => Err(AllocError),
    }
}
