//! Three lanes, run.

ghost use Rattle.std.specs.Prelude.{◌≡◌, ◌<◌, length, IfOk};

use lane_queues::LaneQueues;
use s3_model::{JobId, Op, OutOfMemory};
use std::alloc::Global;
use std::process::Abort;
use std::test::Fail;

fn put(task: u32) -> JobId {
    JobId {
        task: Some(task),
        op: Op::Put,
        number: 0,
    }
}

/// Sends a job to the freest lane, if that has room.
fn give(lanes: &mut LaneQueues, task: u32) -> u32
    ensures { length lanes.new.jobs ≡ length lanes.old.jobs }
{
    let lane = lanes.freest();
    if lanes.has_room(lane) {
        lanes.push(lane, put(task));
    }
    lane
}

/// Sends five jobs, and says to which lane each went.
fn give_five(lanes: &mut LaneQueues) -> [u32; 5]
    ensures { length lanes.new.jobs ≡ length lanes.old.jobs }
{
    [
        give(lanes, 0),
        give(lanes, 1),
        give(lanes, 2),
        give(lanes, 3),
        give(lanes, 4),
    ]
}

fn three_lanes(alloc: Global) -> Result<LaneQueues, OutOfMemory>
    ensures { IfOk result (λ lanes. length lanes.jobs ≡ 3) }
{
    LaneQueues::make(alloc, 3, 2)
}

/// How many jobs are out, the freest lane, and of the second lane how many are out in it and whether it has room.
fn seen(lanes: &LaneQueues) -> (usize, u32, u32, bool)
    requires { 1 < length lanes.now.jobs }
{
    (
        lanes.out(),
        lanes.freest(),
        lanes.out_in(1),
        lanes.has_room(1),
    )
}

/// Takes the oldest job of the second lane.
fn expect_oldest(rt: &impl Abort, lanes: &mut LaneQueues, wanted: Option<JobId>)
    requires { 1 < length lanes.old.jobs }
    ensures { length lanes.new.jobs ≡ length lanes.old.jobs }
{
    let oldest = lanes.oldest(1);
    assert_eq!(rt; (oldest, lanes.pop(1)), (wanted, wanted));
}

fn expect_seen(rt: &impl Abort, lanes: &LaneQueues, wanted: (usize, u32, u32, bool))
    requires { 1 < length lanes.now.jobs }
{
    assert_eq!(rt; seen(lanes), wanted);
}

#[test]
fn jobs_go_to_the_freest_lane(rt: HostRuntime) -> Result<(), Fail> {
    let mut lanes = three_lanes(rt.alloc())?;
    assert_eq!(rt; give_five(&mut lanes), [0, 1, 2, 0, 1]);
    expect_seen(&rt, &lanes, (5, 2, 2, false));
    Ok(())
}

#[test]
fn jobs_come_back_in_order(rt: HostRuntime) -> Result<(), Fail> {
    let mut lanes = three_lanes(rt.alloc())?;
    let _given = give_five(&mut lanes);
    expect_oldest(&rt, &mut lanes, Some(put(1)));
    expect_seen(&rt, &lanes, (4, 1, 1, true));
    expect_oldest(&rt, &mut lanes, Some(put(4)));
    expect_oldest(&rt, &mut lanes, None);
    expect_seen(&rt, &lanes, (3, 1, 0, true));
    Ok(())
}
