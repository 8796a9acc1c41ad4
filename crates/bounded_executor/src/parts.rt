//! The rings and bells of a lane.

ghost use Rattle.std.specs.Prelude.{◌≡◌, IfOk, replicate};
ghost use Rattle.bounded_executor.specs.Parts.{AreReady};

use crate::bell::Bell;
use crate::outbox::Outbox;
use crate::ready::ReadyLanes;
use rtrb::{Consumer, Producer, RingBuffer};
use std::alloc::{AllocError, Global};
use std::collections::VecDeque;
use std::marker::Model;
use std::sync::Arc;

// The two rings of a lane, with its outbox.
#[derive(Drop)]
pub(crate) struct Rings<J, D> {
    pub(crate) outbox: Outbox<J>,
    pub(crate) jobs: Consumer<J>,
    pub(crate) to: Producer<D>,
    pub(crate) outcomes: Consumer<D>,
}

impl<J: Drop, D: Drop> Rings<J, D> {
    fn new(alloc: Global, depth: u32) -> Result<Self, AllocError>
        ensures { IfOk result (λ rings. AreReady depth rings.outbox rings.jobs rings.to rings.outcomes) }
    {
        let waiting = VecDeque::with_capacity(alloc, depth as usize)?;
        let (ring, jobs) = RingBuffer::new(alloc, depth as usize)?;
        let (to, outcomes) = RingBuffer::new(alloc, depth as usize)?;
        Ok(Rings {
            outbox: Outbox { ring, waiting },
            jobs,
            to,
            outcomes,
        })
    }
}

// What wakes the thread of a lane, and what wakes the desk.
#[derive(Drop)]
pub(crate) struct Bells {
    pub(crate) bell: Arc<Bell>,
    pub(crate) worker_bell: Arc<Bell>,
    pub(crate) ready: Arc<ReadyLanes>,
}

impl Bells {
    fn new(alloc: Global, ready: &Arc<ReadyLanes>) -> Result<Self, AllocError> {
        let bell = Arc::new(alloc, Bell::new())?;
        let worker_bell = Arc::try_clone(&bell)?;
        let ready = Arc::try_clone(ready)?;
        Ok(Bells {
            bell,
            worker_bell,
            ready,
        })
    }
}

// All that a lane needs beside its worker, so that a worker moves only once no memory is wanted any more.
//
// Contracts see the depth of the lane.
#[derive(Drop)]
pub(crate) struct Parts<R, J, D> {
    pub(crate) depth: u32,
    pub(crate) rings: Rings<J, D>,
    pub(crate) bells: Bells,
    pub(crate) rt: R,
}

impl<R, J, D> Model for Parts<R, J, D> {
    ghost use Rattle.std.specs.Prelude.{ℕ};

    ghost Value = { ℕ };

    ghost use Rattle.bounded_executor.specs.Parts.{AreReady};

    ghost view = { λ p. p.depth };

    ghost invariant = { λ p. AreReady p.depth p.rings.outbox p.rings.jobs p.rings.to p.rings.outcomes };
}

impl<R: Clone, J: Drop, D: Drop> Parts<R, J, D> {
    pub(crate) fn new(
        rt: &R,
        alloc: Global,
        depth: u32,
        ready: &Arc<ReadyLanes>,
    ) -> Result<Self, AllocError>
        ensures { IfOk result (λ parts. parts ≡ depth) }
    {
        let rt = rt.clone()?;
        let bells = Bells::new(alloc, ready)?;
        match Rings::new(alloc, depth) {
            Ok(rings) => Ok(Parts {
                depth,
                rings,
                bells,
                rt,
            }),
            Err(fault) => Err(fault),
        }
    }
}

// The parts of `count` lanes.
pub(crate) fn all_parts<R: Clone + Drop, J: Drop, D: Drop>(
    rt: &R,
    alloc: Global,
    count: usize,
    depth: u32,
    ready: &Arc<ReadyLanes>,
) -> Result<Vec<Parts<R, J, D>>, AllocError>
    ensures { IfOk result (λ parts. parts.items ≡ replicate count depth) }
{
    let mut parts = Vec::with_capacity(alloc, count)?;
    for _made in 0..count {
        match Parts::new(rt, alloc, depth, ready) {
            Ok(part) => parts.push_reserved(part),
            Err(fault) => return Err(fault),
        }
    }
    Ok(parts)
}
