//! A lane that carries the jobs of an executor.

ghost use Rattle.std.specs.Prelude.{◌≡◌, IfErr, IfOk};
ghost use Rattle.s3_model.specs.Validity.{IsWithin};
ghost use Rattle.lane_workers.specs.LaneWorkers.{carrier_with, lane_over};

use bounded_executor::Worker;
use jobs::{Carried, Job};
use lane_jobs::Lane;
use s3_model::{Endpoint, Keys};
use s3_outside::Wire;
use std::alloc::Global;
use std::marker::Model;

/// A lane behind a desk: it carries each job as `Lane::carry` says. Contracts see it as its lane.
#[derive(Drop)]
pub struct LaneWorker<W> {
    lane: Lane<W>,
}

impl<W> Model for LaneWorker<W> {
    ghost use Rattle.lane_jobs.specs.Lanes.{SeenLane};

    ghost Value = { SeenLane W };

    ghost view = { λ l. l.lane };
}

impl<W: Wire + Drop> LaneWorker<W> {
    /// A lane over this wire with copies of the endpoint and the keys, for jobs of at most `attempts` attempts each,
    /// from 1 to 10. Where there is not enough memory, the wire is handed back.
    pub(crate) fn make(
        alloc: Global,
        wire: W,
        endpoint: &Endpoint,
        keys: &Keys,
        attempts: u32,
    ) -> Result<LaneWorker<W>, W>
        requires { IsWithin 1 attempts 10 }
        ensures made { IfOk result (λ lane. lane ≡ lane_over (carrier_with endpoint.now keys.now attempts) wire) }
        ensures back { IfErr result (λ back. back ≡ wire) }
    {
        match Lane::make(alloc, wire, endpoint, keys, attempts) {
            Ok(lane) => Ok(LaneWorker { lane }),
            Err(wire) => Err(wire),
        }
    }

    /// Gives the wire back.
    pub fn wire(self) -> W
        ensures { result ≡ self.wire }
    {
        let LaneWorker { lane } = self;
        lane.wire()
    }
}

impl<W: Wire + Send + Drop> Worker for LaneWorker<W> {
    ghost use Rattle.lane_workers.specs.LaneWorkers.{LaneCarries};

    type Job = Job;

    type Done = Carried;

    ghost carries = { LaneCarries W.seen W.faults };

    fn carry(&mut self, job: Job) -> Carried {
        self.lane.carry(job)
    }
}
