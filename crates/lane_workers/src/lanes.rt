//! Wires become lanes, and each stands in its place again.

ghost use Rattle.std.specs.Prelude.{◌≡◌, ◌+◌, ◌≤◌, ◌++◌, [], OnErr, OnOk, IfOk, drop, map, reverse, take};
ghost use Rattle.std.specs.Prelude.{vec_capacity, vec_len};
ghost use Rattle.s3_model.specs.Validity.{IsWithin};
ghost use Rattle.lane_workers.specs.LaneWorkers.{LanesComeBack, carrier_with, lane_over, wires_of};

use crate::lane_worker::LaneWorker;
use s3_model::{Endpoint, Keys, OutOfMemory};
use s3_outside::Wire;
use std::alloc::Global;

/// Makes lanes of the last wires, the last of them first, until there are `count`.
fn fill<W: Wire + Drop>(
    alloc: Global,
    lanes: &mut Vec<LaneWorker<W>>,
    wires: &mut Vec<W>,
    count: u32,
    endpoint: &Endpoint,
    keys: &Keys,
    attempts: u32,
) -> Result<(), OutOfMemory>
    requires attempts { IsWithin 1 attempts 10 }
    requires none { lanes.old.items ≡ [] }
    requires enough { count ≤ vec_len wires.old }
    requires room { count ≤ vec_capacity lanes.old }
    ensures made { lanes.new.items
        ≡ map (lane_over (carrier_with endpoint.now keys.now attempts)) (wires_of lanes.new.items) }
    ensures wires { wires_of lanes.new.items ++ reverse wires.new.items ≡ reverse wires.old.items }
    ensures count { OnOk result (vec_len lanes.new ≡ count) }
    ensures capacity { vec_capacity wires.new ≡ vec_capacity wires.old }
{
    for _ in 0..count {
        let Some(wire) = wires.pop() else {
            unreachable!()
        };
        match LaneWorker::make(alloc, wire, endpoint, keys, attempts) {
            Ok(lane) => lanes.push_reserved(lane),
            Err(wire) => {
                wires.push_reserved(wire);
                return Err(OutOfMemory);
            }
        }
    }
    Ok(())
}

/// The first `count` wires become lanes, in their order, each with copies of the endpoint and the keys, for jobs of at
/// most `attempts` attempts each, from 1 to 10. The wires behind them stay, and the list keeps the room for all. Where
/// memory runs out, the only error, every wire stands in its place again.
pub fn make_lanes<W: Wire + Drop>(
    alloc: Global,
    wires: &mut Vec<W>,
    count: u32,
    endpoint: &Endpoint,
    keys: &Keys,
    attempts: u32,
) -> Result<Vec<LaneWorker<W>>, OutOfMemory>
    requires count { count ≤ vec_len wires.old }
    requires attempts { IsWithin 1 attempts 10 }
    ensures made { IfOk result (λ lanes.
        lanes.items ≡ map (lane_over (carrier_with endpoint.now keys.now attempts)) (take count wires.old.items)) }
    ensures others { OnOk result (wires.new.items ≡ drop count wires.old.items) }
    ensures room { OnOk result (vec_len wires.old ≤ vec_capacity wires.new) }
    ensures err { OnErr result (wires.new.items ≡ wires.old.items) }
{
    let mut lanes = Vec::with_capacity(alloc, count as usize)?;
    wires.reverse();
    let filled = fill(alloc, &mut lanes, wires, count, endpoint, keys, attempts);
    wires.reverse();
    match filled {
        Ok(()) => Ok(lanes),
        Err(OutOfMemory) => {
            give_back(lanes, wires);
            Err(OutOfMemory)
        }
    }
}

/// The wires of the lanes stand in front again, in the order of the lanes. It takes no memory: the list has the room.
pub fn give_back<W: Wire + Drop>(lanes: Vec<LaneWorker<W>>, wires: &mut Vec<W>)
    requires room { vec_len lanes + vec_len wires.old ≤ vec_capacity wires.old }
    ensures back { wires.new.items ≡ wires_of lanes.items ++ wires.old.items }
{
    let behind = wires.len();
    for lane in lanes {
        wires.push_reserved(lane.wire());
    }
    wires.rotate_left(behind);
}

/// Lanes that carried what they were given, each one job after the other, stand in their places, as many as before: the
/// same carrier each, over a wire of which no fewer calls failed. It is a law, a function that does nothing.
pub fn lanes_come_back<W: Wire>()
    ensures { LanesComeBack W.seen W.faults }
{}
