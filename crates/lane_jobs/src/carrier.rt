//! What carries the jobs of a lane.

ghost use Rattle.std.specs.Prelude.{◌≡◌, ◌≤◌, ◌<◌, ℕ, List, [], None, Some, IfOk, IfErr, IsSome};
ghost use Rattle.attempts.specs.Attempts.{IsGet};
ghost use Rattle.attempts.specs.Payloads.{body_of};
ghost use Rattle.s3_model.specs.Validity.{IsWithin};
ghost use Rattle.s3_model.specs.declared.requests.Ask.{Ask};
ghost use Rattle.s3_model.specs.declared.requests.Op.TheVariants as op;
ghost use Rattle.job_terms.specs.Ops.{op_of};
ghost use Rattle.jobs.specs.Jobs.{HasPart, IsAskOf, bytes_of, range_of};
ghost use Rattle.s3_signing.specs.Signing.{IsHashOf};
ghost use Rattle.jobs.specs.declared.ending.Ending.TheVariants as ending;
ghost use Rattle.lane_jobs.specs.Lanes.{
  Carries,
  IsCarriedBy,
  IsPlace,
  IsSameCarrier,
  IsSameJob,
  KeepsCell,
  KeepsPart,
  most_attempts,
  reason_of,
  request_for,
  request_to,
};

use crate::tries::{Went, make_attempts};
use attempts::{Client, Payload};
use jobs::{CancelCell, Carried, Ending, Job, What, ask_of};
use s3_model::{Ask, Bytes, Endpoint, Keys, OutOfMemory, Part, Tries};
use s3_outside::Wire;
use s3_signing::HexHash;
use std::alloc::Global;
use std::marker::Model;
use std::mem;

/// What a lane has beside its wire: what signs the requests, and the room in which answers are read. It carries jobs,
/// one after the other.
///
/// Contracts see the endpoint, the keys, and the most attempts of a job, 1 to 10.
#[derive(Drop)]
pub struct Carrier {
    client: Client,
    /// The place of bodies that nobody asked for.
    nowhere: Bytes,
    attempts: u32,
    alloc: Global,
}

impl Model for Carrier {
    ghost use Rattle.s3_model.specs.Validity.{IsWithin};
    ghost use Rattle.lane_jobs.specs.Lanes.{SeenCarrier};

    ghost Value = { SeenCarrier };

    ghost view = { λ l. record { endpoint = l.client.endpoint; keys = l.client.signer; attempts = l.attempts } };

    ghost invariant = { λ l. IsWithin 1 l.attempts 10 };
}

/// The bytes of a part, none where there is no part.
fn bytes_of(part: &Option<Part>) -> &[u8]
    ensures { result.now ≡ bytes_of part.now }
{
    match part {
        Some(part) => part.bytes.as_slice(),
        None => &[],
    }
}

/// The length of a job's piece in bytes, 0 for a job of the planning.
fn length_of(what: &What) -> u64
    ensures { result ≡ (range_of what.now).1 }
{
    match what {
        What::Plan(_) => 0,
        What::Step { range, .. } => range.1,
    }
}

/// What came of a job for which memory ran out before its first attempt.
fn out_of_memory() -> Went
    ensures tries { result.tries ≡ [] }
    ensures ending { result.ending ≡ ending.Memory }
{
    Went {
        tries: Tries::none(),
        ending: Ending::Memory,
    }
}

/// Hands back a job for whose request memory ran out.
fn hand_back(job: Job) -> Carried
    ensures asks { (asked : Ask) × IsAskOf job.id job.what asked }
    ensures job { result.job ≡ job }
    ensures tries { result.tries ≡ [] }
    ensures ending { result.ending ≡ ending.Memory }
{
    let _ = &job.id;
    Carried {
        job,
        tries: Tries::none(),
        ending: Ending::Memory,
    }
}

impl Carrier {
    /// A carrier of jobs of at most `attempts` attempts each, from 1 to 10, for the service at this endpoint. It takes
    /// some 800 KiB of memory.
    pub fn make(
        alloc: Global,
        endpoint: Endpoint,
        keys: Keys,
        attempts: u32,
    ) -> Result<Carrier, OutOfMemory>
        requires { IsWithin 1 attempts 10 }
        ensures { IfOk result (λ carrier.
            carrier ≡ record { endpoint = endpoint; keys = keys; attempts = attempts }) }
    {
        let client = Client::make(alloc, endpoint, keys)?;
        match Bytes::make(alloc, 0) {
            Ok(nowhere) => Ok(Carrier {
                client,
                nowhere,
                attempts,
                alloc,
            }),
            Err(fault) => {
                mem::drop(client);
                Err(fault)
            }
        }
    }

    /// The number of the last attempt of a job.
    fn most(&self, had: u32) -> u32
        requires { had ≤ 9 }
        ensures number { result ≡ most_attempts self.now.attempts had }
        ensures left { had < result }
        ensures bound { result ≤ 10 }
    {
        self.attempts.max(had + 1)
    }

    /// Makes the attempts of a request whose answer has no place of its own.
    fn send<W: Wire>(
        &mut self,
        wire: &mut W,
        ask: &Ask,
        part: &Option<Part>,
        hash: &mut Option<HexHash>,
        cell: &mut Option<CancelCell>,
        had: u32,
    ) -> Went
        requires hash { IsHashOf hash.old (bytes_of part.now) }
        requires had { had ≤ 9 }
        ensures carried { (place : List ℕ) × Carries (request_to self.old ask.now
            (body_of ask.now (bytes_of part.now)) None) had
            (most_attempts self.old.attempts had) (reason_of cell.new) place (W.seen wire.old)
            (W.seen wire.new) result.tries result.ending }
        ensures stopped { IsSome (reason_of cell.old) → result.tries ≡ [] }
        ensures hash { IsHashOf hash.new (bytes_of part.now) }
        ensures cell { KeepsCell cell.old cell.new }
        ensures carrier { IsSameCarrier self.old self.new }
        ensures later { W.faults wire.old ≤ W.faults wire.new }
    {
        let most = self.most(had);
        match Payload::of(self.alloc, ask, bytes_of(part), hash) {
            Ok(payload) => make_attempts(
                self.alloc,
                wire,
                &mut self.client,
                ask,
                &payload,
                None,
                &mut self.nowhere,
                cell,
                had,
                most,
            ),
            Err(_) => out_of_memory(),
        }
    }

    /// Makes the attempts of a Get whose body goes to this part, and has at most `limit` bytes.
    fn fetch<W: Wire>(
        &mut self,
        wire: &mut W,
        ask: &Ask,
        limit: u64,
        part: &mut Part,
        cell: &mut Option<CancelCell>,
        had: u32,
    ) -> Went
        requires get { IsGet ask.now }
        requires room { limit ≤ part.old.bytes.room }
        requires had { had ≤ 9 }
        ensures carried { Carries (request_to self.old ask.now (body_of ask.now []) (Some limit)) had
            (most_attempts self.old.attempts had) (reason_of cell.new) part.new.bytes.bytes (W.seen wire.old)
            (W.seen wire.new) result.tries result.ending }
        ensures stopped { IsSome (reason_of cell.old) → result.tries ≡ [] }
        ensures room { part.new.bytes.room ≡ part.old.bytes.room }
        ensures cell { KeepsCell cell.old cell.new }
        ensures carrier { IsSameCarrier self.old self.new }
        ensures later { W.faults wire.old ≤ W.faults wire.new }
    {
        let most = self.most(had);
        let payload = Payload::empty();
        make_attempts(
            self.alloc,
            wire,
            &mut self.client,
            ask,
            &payload,
            Some(limit),
            &mut part.bytes,
            cell,
            had,
            most,
        )
    }

    /// Makes the attempts of a job's request.
    fn serve<W: Wire>(
        &mut self,
        wire: &mut W,
        ask: &Ask,
        length: u64,
        part: &mut Option<Part>,
        hash: &mut Option<HexHash>,
        cell: &mut Option<CancelCell>,
        had: u32,
    ) -> Went
        requires part { IsGet ask.now → HasPart op.Get length part.old }
        requires hash { IsHashOf hash.old (bytes_of part.old) }
        requires had { had ≤ 9 }
        ensures carried { (place : List ℕ) × IsPlace ask.now part.new place × Carries (request_for self.old ask.now
            part.old length) had (most_attempts self.old.attempts had) (reason_of cell.new) place
            (W.seen wire.old) (W.seen wire.new) result.tries result.ending }
        ensures stopped { IsSome (reason_of cell.old) → result.tries ≡ [] }
        ensures part { KeepsPart (op_of ask.now) part.old part.new }
        ensures hash { IsHashOf hash.new (bytes_of part.new) }
        ensures cell { KeepsCell cell.old cell.new }
        ensures carrier { IsSameCarrier self.old self.new }
        ensures later { W.faults wire.old ≤ W.faults wire.new }
    {
        match ask {
            Ask::Get { .. } => {
                let Some(part) = part else { unreachable!() };
                *hash = None;
                self.fetch(wire, ask, length, part, cell, had)
            }
            _ => self.send(wire, ask, part, hash, cell, had),
        }
    }

    /// Carries a job by this request of it.
    fn carry_by<W: Wire>(&mut self, wire: &mut W, ask: &Ask, job: Job) -> Carried
        requires { IsAskOf job.id job.what ask.now }
        ensures carried { IsCarriedBy self.old job (W.seen wire.old) (W.seen wire.new) result }
        ensures stopped { IsSome (reason_of job.cell) → result.tries ≡ [] }
        ensures job { IsSameJob job result.job }
        ensures carrier { IsSameCarrier self.old self.new }
        ensures later { W.faults wire.old ≤ W.faults wire.new }
    {
        let length = length_of(&job.what);
        let Job {
            id,
            what,
            mut part,
            mut hash,
            mut cell,
            had,
        } = job;
        let Went { tries, ending } = self.serve(
            wire, ask, length, &mut part, &mut hash, &mut cell, had,
        );
        let job = Job {
            id,
            what,
            part,
            hash,
            cell,
            had,
        };
        Carried { job, tries, ending }
    }

    /// Carries a job: makes its attempts over the wire, and hands it back with their marks and its ending.
    ///
    /// Each attempt is one talk with the endpoint, signed at its moment. The bytes of a part are hashed once, also where
    /// the job is given again. An attempt that lost its answer, or was refused with the code `SlowDown`,
    /// `ServiceUnavailable` or `RequestTimeout`, is made again, up to the carrier's number of attempts in all; before
    /// attempt n + 1 it waits for min(20, 2^(n-1)) seconds. A cell of the job is looked at before each attempt and the
    /// pause ahead of it; a job without one goes on to its end.
    pub fn carry<W: Wire>(&mut self, wire: &mut W, job: Job) -> Carried
        ensures carried { IsCarriedBy self.old job (W.seen wire.old) (W.seen wire.new) result }
        ensures stopped { IsSome (reason_of job.cell) → result.tries ≡ [] }
        ensures job { IsSameJob job result.job }
        ensures carrier { IsSameCarrier self.old self.new }
        ensures later { W.faults wire.old ≤ W.faults wire.new }
    {
        match ask_of(self.alloc, &job) {
            Ok(ask) => {
                let carried = self.carry_by(wire, &ask, job);
                mem::drop(ask);
                carried
            }
            Err(_) => hand_back(job),
        }
    }
}
