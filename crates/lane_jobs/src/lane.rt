//! A lane over one connection.

ghost use Rattle.std.specs.Prelude.{◌≡◌, ◌≤◌, [], IfOk, IfErr, IsSome};
ghost use Rattle.s3_model.specs.Validity.{IsWithin};
ghost use Rattle.lane_jobs.specs.Lanes.{IsCarriedBy, IsSameCarrier, IsSameJob, reason_of};

use crate::carrier::Carrier;
use jobs::{Carried, Job};
use s3_model::{Endpoint, Keys, OutOfMemory};
use s3_outside::Wire;
use std::alloc::Global;
use std::marker::Model;
use std::mem;

/// A connection to a service that carries jobs, one after the other. It keeps the connection, where the service allows
/// it.
#[derive(Drop)]
pub struct Lane<W> {
    wire: W,
    carrier: Carrier,
}

impl<W> Model for Lane<W> {
    ghost use Rattle.lane_jobs.specs.Lanes.{SeenLane};

    ghost Value = { SeenLane W };

    ghost view = { λ l. record { wire = l.wire; carrier = l.carrier } };
}

/// A carrier with copies of an endpoint and of keys.
fn carrier_of(
    alloc: Global,
    endpoint: &Endpoint,
    keys: &Keys,
    attempts: u32,
) -> Result<Carrier, OutOfMemory>
    requires { IsWithin 1 attempts 10 }
    ensures { IfOk result (λ carrier.
        carrier ≡ record { endpoint = endpoint.now; keys = keys.now; attempts = attempts }) }
{
    let endpoint = endpoint.copy()?;
    match keys.copy() {
        Ok(keys) => Carrier::make(alloc, endpoint, keys, attempts),
        Err(OutOfMemory) => Err(OutOfMemory),
    }
}

impl<W: Wire + Drop> Lane<W> {
    /// A lane over this wire with copies of the endpoint and the keys, for jobs of at most `attempts` attempts each,
    /// from 1 to 10. It takes some 800 KiB of memory; where there is not enough, the wire is handed back.
    pub fn make(
        alloc: Global,
        wire: W,
        endpoint: &Endpoint,
        keys: &Keys,
        attempts: u32,
    ) -> Result<Lane<W>, W>
        requires { IsWithin 1 attempts 10 }
        ensures made { IfOk result (λ lane. lane ≡ record {
          wire = wire;
          carrier = record {
            endpoint = endpoint.now;
            keys = keys.now;
            attempts = attempts;
          };
        }) }
        ensures back { IfErr result (λ back. back ≡ wire) }
    {
        match carrier_of(alloc, endpoint, keys, attempts) {
            Ok(carrier) => Ok(Lane { wire, carrier }),
            Err(_) => Err(wire),
        }
    }

    /// Gives the wire back.
    pub fn wire(self) -> W
        ensures { result ≡ self.wire }
    {
        let Lane { wire, carrier } = self;
        mem::drop(carrier);
        wire
    }

    /// Carries a job over the wire, as `Carrier::carry` says.
    pub fn carry(&mut self, job: Job) -> Carried
        ensures carried { IsCarriedBy self.old.carrier job (W.seen self.old.wire) (W.seen self.new.wire) result }
        ensures stopped { IsSome (reason_of job.cell) → result.tries ≡ [] }
        ensures job { IsSameJob job result.job }
        ensures carrier { IsSameCarrier self.old.carrier self.new.carrier }
        ensures later { W.faults self.old.wire ≤ W.faults self.new.wire }
    {
        self.carrier.carry(&mut self.wire, job)
    }
}
