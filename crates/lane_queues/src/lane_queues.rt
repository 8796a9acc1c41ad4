//! The jobs of many lanes.

ghost use Rattle.std.specs.Prelude.{◌≡◌, ◌≤◌, ◌<◌, ◌++◌, ◌∷◌, ◌^◌, ◌-◌, [], ℕ, IfOk, drop, get_or, length, nat_lt, replicate, slice_get};
ghost use Rattle.lane_queues.specs.Lanes.{IsFreest, jobs_in, out_in, out_of, with_jobs};

use crate::job_queue::JobQueue;
use minimum_tree::MinimumTree;
use s3_model::{JobId, OutOfMemory};
use std::alloc::Global;
use std::marker::Model;

/// For each lane the jobs that are out in it, the oldest first, at most `depth` of them. No call but `make` takes
/// memory, and none goes over the lanes: the freest is found in as many steps as their number has binary digits.
#[derive(Drop)]
pub struct LaneQueues {
    depth: usize,
    queues: Vec<JobQueue>,
    /// How many jobs are out in each lane.
    outs: MinimumTree,
    /// How many are out in all.
    out: usize,
}

impl Model for LaneQueues {
    ghost use Rattle.lane_queues.specs.Lanes.{IsSound, SeenLanes, rows};

    ghost Value = { SeenLanes };

    ghost view = { λ l. record { depth = l.depth; jobs = rows l.queues.items } };

    ghost invariant = { λ l. IsSound l.depth l.queues.items l.outs l.out };
}

#[tactic(auto, using(std::proofs::lemmas::List::replicate_more))]
fn empty_queues(alloc: Global, lanes: u32, room: usize) -> Result<Vec<JobQueue>, OutOfMemory>
    ensures { IfOk result (λ queues. queues.items ≡ replicate lanes (record { row = []; room = room })) }
{
    let mut queues = Vec::with_capacity(alloc, lanes as usize)?;
    for _ in 0..lanes {
        queues.push(JobQueue::make(alloc, room)?)?;
    }
    Ok(queues)
}

/// No job out in each lane, and no free place behind the last one.
fn empty_outs(alloc: Global, lanes: u32) -> Result<MinimumTree, OutOfMemory>
    requires few { lanes ≤ 65535 }
    ensures wide { IfOk result (λ outs. lanes ≤ length outs) }
    ensures none { IfOk result (λ outs. (lane : ℕ) → lane < lanes → get_or outs lane 0 ≡ 0) }
    ensures behind { IfOk result (λ outs. (place : ℕ) → lanes ≤ place → place < length outs
        → get_or outs place 0 ≡ 2 ^ 32 - 1) }
{
    let mut outs = MinimumTree::make(alloc, lanes, u32::MAX)?;
    for lane in 0..lanes {
        outs.set(lane as usize, 0);
    }
    Ok(outs)
}

impl LaneQueues {
    /// So many lanes, with no job out and at most `depth` in each. It takes all the memory of the lanes.
    pub fn make(alloc: Global, lanes: u32, depth: u32) -> Result<LaneQueues, OutOfMemory>
        requires some { 1 ≤ lanes }
        requires few { lanes ≤ 65535 }
        requires shallow { depth ≤ 64 }
        ensures { IfOk result (λ made. made ≡ record { depth = depth; jobs = replicate lanes [] }) }
    {
        let depth = depth as usize;
        let queues = empty_queues(alloc, lanes, depth)?;
        let outs = empty_outs(alloc, lanes)?;
        Ok(LaneQueues {
            depth,
            queues,
            outs,
            out: 0,
        })
    }

    /// How many jobs are out in all lanes.
    pub fn out(&self) -> usize
        ensures { result ≡ out_of self.now }
    {
        self.out
    }

    /// The lane with the fewest jobs out, the lowest of equals.
    pub fn freest(&self) -> u32
        ensures { IsFreest self.now result }
    {
        self.outs.least() as u32
    }

    /// How many jobs are out in a lane.
    pub fn out_in(&self, lane: u32) -> u32
        requires { lane < length self.now.jobs }
        ensures { result ≡ out_in self.now lane }
    {
        self.outs.get(lane as usize)
    }

    /// Whether a lane takes one more job.
    pub fn has_room(&self, lane: u32) -> bool
        requires { lane < length self.now.jobs }
        ensures { result ≡ nat_lt (out_in self.now lane) self.now.depth }
    {
        (self.outs.get(lane as usize) as usize) < self.depth
    }

    /// The oldest job out in a lane.
    pub fn oldest(&self, lane: u32) -> Option<JobId>
        requires { lane < length self.now.jobs }
        ensures { result ≡ slice_get (jobs_in self.now lane) 0 }
    {
        self.queues[lane as usize].oldest()
    }

    /// A job goes to a lane that has room.
    pub fn push(&mut self, lane: u32, job: JobId)
        requires lane { lane < length self.old.jobs }
        requires room { out_in self.old lane < self.old.depth }
        ensures { self.new ≡ with_jobs self.old lane (jobs_in self.old lane ++ job ∷ []) }
    {
        let lane = lane as usize;
        self.queues[lane].push(job);
        let more = self.outs.get(lane) + 1;
        self.outs.set(lane, more);
        self.out += 1;
    }

    /// The oldest job out in a lane comes back.
    pub fn pop(&mut self, lane: u32) -> Option<JobId>
        requires { lane < length self.old.jobs }
        ensures job { result ≡ slice_get (jobs_in self.old lane) 0 }
        ensures rest { self.new ≡ with_jobs self.old lane (drop 1 (jobs_in self.old lane)) }
    {
        let lane = lane as usize;
        let job = self.queues[lane].pop()?;
        let fewer = self.outs.get(lane) - 1;
        self.outs.set(lane, fewer);
        self.out -= 1;
        Some(job)
    }
}
