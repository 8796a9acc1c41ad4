//! Lanes are opened and closed.

ghost use Rattle.std.specs.Prelude.{◌≡◌, ◌≤◌, [], map, replicate, vec_len, vec_capacity};
ghost use Rattle.bounded_executor.specs.Lane.{opened};
ghost use Rattle.bounded_executor.specs.Station.{IsUnused, HasServed};

use crate::lane::{Crew, Lane};
use crate::parts::{Bells, Parts, Rings};
use crate::station::{Opened, Station};
use crate::worker::Worker;
use std::snapshot::Snapshot;
use std::sync::Wait;
use std::thread::{Builder, Threads};

// Sends the worker of the lane of this number into a thread of its own, or keeps it at the desk where none can be started.
pub(crate) fn open_lane<R: Threads + Wait + Send + Drop + 'static, W: Worker + 'static>(
    rt: &R,
    parts: Parts<R, W::Job, W::Done>,
    worker: W,
    number: usize,
    builder: Builder,
) -> Lane<W>
where
    W::Job: 'static,
    W::Done: 'static,
    ensures { result ≡ opened parts worker }
{
    let Parts {
        depth,
        rings: Rings {
            mut outbox,
            jobs,
            to,
            outcomes,
        },
        bells: Bells {
            bell,
            worker_bell,
            ready,
        },
        rt: thread_rt,
    } = parts;
    let start = Snapshot::of(&worker);
    let station = Station {
        worker,
        jobs,
        outcomes: to,
    };
    let opened = Opened {
        station: Snapshot::of(&station),
    };
    let work = move || -> Station<W>
        requires { IsUnused station }
        ensures { HasServed W.carries station result }
    { station.serve(&thread_rt, &worker_bell, &ready, number) };
    let crew = match builder.spawn_with(rt, opened, work) {
        Ok(thread) => Crew::Away(thread),
        Err(refused) => {
            bell.close();
            let mut station = (refused.value)();
            station.jobs.slots_beside(&mut outbox.ring);
            Crew::Here(station)
        }
    };
    Lane {
        depth,
        out: 0,
        outbox,
        outcomes,
        bell,
        crew,
        start,
    }
}

// A lane for each worker, in order. The list of lanes has the room already.
pub(crate) fn open_lanes<R: Threads + Wait + Send + Drop + 'static, W: Worker + 'static>(
    rt: &R,
    workers: Vec<W>,
    parts: Vec<Parts<R, W::Job, W::Done>>,
    lanes: Vec<Lane<W>>,
    depth: u32,
    stack_size: Option<usize>,
) -> Vec<Lane<W>>
where
    W::Job: 'static,
    W::Done: 'static,
    requires parts { parts.items ≡ replicate (vec_len workers) depth }
    requires room { (lanes.items ≡ []) × (vec_len workers ≤ vec_capacity lanes) }
    ensures { result.items ≡ map (opened depth) workers.items }
{
    let mut parts = parts;
    let mut lanes = lanes;
    for worker in workers {
        let Some(part) = parts.pop() else {
            unreachable!()
        };
        let number = lanes.len();
        lanes.push_reserved(open_lane(rt, part, worker, number, builder_of(stack_size)));
    }
    lanes
}

// What starts a thread with a stack of this many bytes.
fn builder_of(stack_size: Option<usize>) -> Builder {
    match stack_size {
        Some(size) => Builder::new().stack_size(size),
        None => Builder::new(),
    }
}
