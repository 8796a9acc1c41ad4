//! The end of a lane at which its worker stands.

ghost use Rattle.std.specs.Prelude.{◌≡◌, ◌++◌, ◌∷◌, [], IfSome, IfNone};
ghost use Rattle.rtrb.specs.Ring.{sent, received, SameConsumer, SameProducer};
ghost use Rattle.bounded_executor.specs.Station.{IsUnused, HasServed};

use crate::bell::Bell;
use crate::ready::ReadyLanes;
use crate::worker::Worker;
use rtrb::{Consumer, Producer, PushError};
use std::snapshot::Snapshot;
use std::sync::Wait;
use std::thread::Promise;

// A worker with its ends of the two rings of its lane.
#[derive(Drop)]
pub(crate) struct Station<W: Worker> {
    pub(crate) worker: W,
    pub(crate) jobs: Consumer<W::Job>,
    pub(crate) outcomes: Producer<W::Done>,
}

// Remembers a station as it was before its worker began.
#[derive(Drop)]
pub(crate) struct Opened<W: Worker> {
    pub(crate) station: Snapshot<Station<W>>,
}

impl<W: Worker> Promise<Station<W>> for Opened<W> {
    ghost kept_by = { λ p s. HasServed W.carries p.station.value s };
}

// The next job, or none once the bell is closed and the ring is empty.
fn next_job<R: Wait, J: Drop>(rt: &R, bell: &Bell, jobs: &mut Consumer<J>) -> Option<J>
    ensures ring { SameConsumer jobs.old jobs.new }
    ensures some { IfSome result (λ job. received jobs.new ≡ received jobs.old ++ job ∷ []) }
    ensures none { IfNone result (received jobs.new ≡ received jobs.old) }
{
    for _ in rt.forever() {
        let closed = bell.is_closed();
        if let Ok(job) = jobs.pop() {
            return Some(job);
        }
        if closed {
            return None;
        }
        bell.wait(rt);
    }
    unreachable!()
}

// The ring has room for the outcome of each job that is out, so the first round sends it. No clause of a ring tells its
// producer so; a full ring would be tried again at once, since nobody rings when an outcome is taken.
fn push_outcome<R: Wait, D: Drop>(rt: &R, outcomes: &mut Producer<D>, outcome: D)
    ensures ring { SameProducer outcomes.old outcomes.new }
    ensures sent { sent outcomes.new ≡ sent outcomes.old ++ outcome ∷ [] }
{
    let mut outcome = outcome;
    for _ in rt.forever() {
        match outcomes.push(outcome) {
            Ok(()) => return,
            Err(PushError::Full(back)) => outcome = back,
        }
    }
    unreachable!()
}

impl<W: Worker> Station<W> {
    // Carries each job that comes, until the bell is closed and no job is left. Tells the desk of each outcome of the lane.
    pub(crate) fn serve<R: Wait>(
        self,
        rt: &R,
        bell: &Bell,
        ready: &ReadyLanes,
        lane: usize,
    ) -> Station<W>
        requires { IsUnused self }
        ensures { HasServed W.carries self result }
    {
        let mut station = self;
        for _ in rt.forever() {
            let Some(job) = next_job(rt, bell, &mut station.jobs) else {
                return station;
            };
            let outcome = station.worker.carry(job);
            push_outcome(rt, &mut station.outcomes, outcome);
            ready.mark(lane);
        }
        unreachable!()
    }
}
