//! Works, computed.

ghost use Rattle.std.specs.Prelude.{◌≡◌, ◌≤◌, false, IfOk};

use s3_model::{Config, Kind, Limits, Op, OutOfMemory, Place, Task, Text};
use std::alloc::Global;
use std::mem;
use std::test::Fail;
use task_acts::{Act, Work};
use task_works::{begin, work_of};

const MIB: u64 = 1_048_576;

/// The limits of Amazon S3, but for the largest object, which is 2^40 bytes.
const LIMITS: Limits = Limits {
    min_part: 5_242_880,
    max_part: 5_368_709_120,
    max_parts: 10_000,
    max_object: 1_099_511_627_776,
};

const CONFIG: Config = Config {
    threshold: 8_388_608,
    chunk: 8_388_608,
    lanes: 10,
    queue: 1_000,
    buffers: 16,
    attempts: 3,
};

/// A task of that many MiB, to that file.
fn task_to(kind: Kind, mebibytes: u64, path: Text, etag: Text) -> Task
    requires few { mebibytes ≤ 1000000 }
    ensures size { result.size ≤ 1099511627776 }
    ensures replaces { result.fresh ≡ false }
{
    Task {
        kind,
        moves: true,
        source: None,
        dest: Place::File { path },
        size: mebibytes * MIB,
        etag,
        micros: 0,
        content: None,
        fresh: false,
    }
}

/// A task of that many MiB.
fn task(alloc: Global, kind: Kind, mebibytes: u64) -> Result<Task, OutOfMemory>
    requires few { mebibytes ≤ 1000000 }
    ensures size { IfOk result (λ task. task.size ≤ 1099511627776) }
    ensures replaces { IfOk result (λ task. task.fresh ≡ false) }
{
    let path = Text::of(alloc, "f")?;
    let etag = Text::of(alloc, "")?;
    Ok(task_to(kind, mebibytes, path, etag))
}

/// The work of a task of that many MiB.
fn work(alloc: Global, kind: Kind, mebibytes: u64) -> Result<Work, OutOfMemory>
    requires { mebibytes ≤ 1000000 }
{
    let task = task(alloc, kind, mebibytes)?;
    let work = work_of(&task, &CONFIG, &LIMITS);
    mem::drop(task);
    Ok(work)
}

/// Whether a task of that many MiB goes in one piece, the length of its pieces, and how many they are.
fn pieces(alloc: Global, kind: Kind, mebibytes: u64) -> Result<(bool, u64, u32), OutOfMemory>
    requires { mebibytes ≤ 1000000 }
{
    let work = work(alloc, kind, mebibytes)?;
    Ok((work.small, work.piece, work.count))
}

#[test]
fn small_and_large_tasks(rt: HostRuntime) -> Result<(), Fail> {
    let alloc = rt.alloc();
    let seen = [
        pieces(alloc, Kind::Upload, 7)?,
        pieces(alloc, Kind::Upload, 8)?,
        pieces(alloc, Kind::Download, 20)?,
        pieces(alloc, Kind::Copy, 100_000)?,
        pieces(alloc, Kind::RemoveObject, 20)?,
    ];
    assert_eq!(rt;
        seen,
        [
            (true, 7 * MIB, 1),
            (false, 8 * MIB, 1),
            (false, 8 * MIB, 3),
            (false, 16 * MIB, 6_250),
            (false, 0, 1)
        ]
    );
    Ok(())
}

#[test]
fn attempts_and_moves(rt: HostRuntime) -> Result<(), Fail> {
    let large = work(rt.alloc(), Kind::Copy, 100_000)?;
    let removal = work(rt.alloc(), Kind::RemoveObject, 20)?;
    assert_eq!(rt; (large.attempts, removal.moves), (3, true));
    Ok(())
}

/// The act that a task begins with.
fn begun_with(alloc: Global, task: &Task) -> Result<Option<Act>, OutOfMemory>
    requires size { task.now.size ≤ 1099511627776 }
    requires replaces { task.now.fresh ≡ false }
{
    match begin(alloc, task, &CONFIG, &LIMITS) {
        Ok(state) => {
            let act = state.ready();
            mem::drop(state);
            Ok(act)
        }
        Err(OutOfMemory) => Err(OutOfMemory),
    }
}

/// The act that a task of that many MiB begins with.
fn first_act(alloc: Global, kind: Kind, mebibytes: u64) -> Result<Option<Act>, OutOfMemory>
    requires { mebibytes ≤ 1000000 }
{
    let task = task(alloc, kind, mebibytes)?;
    let act = begun_with(alloc, &task);
    mem::drop(task);
    act
}

#[test]
fn the_first_act_of_a_task(rt: HostRuntime) -> Result<(), Fail> {
    let alloc = rt.alloc();
    let acts = [
        first_act(alloc, Kind::Upload, 7)?,
        first_act(alloc, Kind::Upload, 20)?,
        first_act(alloc, Kind::RemoveFile, 20)?,
    ];
    let create = Act::Send {
        op: Op::Create,
        number: 0,
    };
    assert_eq!(rt;
        acts,
        [
            Some(Act::Read { number: 0 }),
            Some(create),
            Some(Act::Remove)
        ]
    );
    Ok(())
}
