//! A run of many tasks.

ghost use Rattle.std.specs.Prelude.{◌≡◌, ◌≤◌, [], None, IfErr, IfOk, OnOk, replicate};
ghost use Rattle.manager_core.specs.Running.{CanRun, IsRunning, IsSharedOf, lane_depth};
ghost use Rattle.manager_moves.specs.Runs.{Shared};
ghost use Rattle.move_core.specs.Means.{IsSharedBy};
ghost use Rattle.move_laws.specs.Follows.{Follows};
ghost use Rattle.s3_model.specs.Validity.{IsValidConfig, IsValidLimits};

use crate::due::Due;
use crate::steps::StepSlot;
use move_core::{Means, MoveCore};
use run_needs::{Needs, needs_of};
use s3_model::{Config, Journal, Limits, OutOfMemory, Outcomes, Plan};
use std::alloc::Global;
use std::marker::Model;

/// A run of the tasks of a plan, over so many lanes.
///
/// [`Manager::next`] names what is to be done, and each move but a wait and the end is answered by one call. What comes
/// back from a lane, and a cancel, may come between two moves. No call takes memory but `make`, `made` and
/// `cancel_cell`, and none goes over the tasks but `make`, `cancel_all` and `finish`.
#[derive(Drop)]
pub struct Manager {
    pub(crate) alloc: Global,
    pub(crate) plan: Plan,
    pub(crate) journal: Journal,
    pub(crate) outcomes: Outcomes,
    pub(crate) config: Config,
    pub(crate) limits: Limits,
    pub(crate) moves: MoveCore,
    pub(crate) steps: Vec<StepSlot>,
    pub(crate) due: Due,
}

impl Model for Manager {
    ghost use Rattle.manager_core.specs.Kept.{SeenManager};

    ghost Value = { SeenManager };

    ghost view = { λ m. record {
      plan = m.plan;
      journal = m.journal;
      outcomes = m.outcomes;
      config = m.config;
      limits = m.limits;
      moves = m.moves;
      steps = m.steps.items;
      due = m.due;
    } };
}

/// What is reserved for a run at its start.
#[derive(Drop)]
struct Rooms {
    moves: MoveCore,
    steps: Vec<StepSlot>,
    outcomes: Outcomes,
}

fn no_steps(alloc: Global, count: u32) -> Result<Vec<StepSlot>, OutOfMemory>
    ensures { IfOk result (λ steps. steps.items ≡ replicate count None) }
{
    let mut steps = Vec::with_capacity(alloc, count as usize)?;
    for _ in 0..count {
        steps.push_reserved(StepSlot::empty());
    }
    Ok(steps)
}

fn no_outcomes(alloc: Global, count: u32) -> Result<Outcomes, OutOfMemory>
    ensures items { IfOk result (λ outcomes. outcomes.items ≡ []) }
    ensures room { IfOk result (λ outcomes. count ≤ outcomes.spare) }
{
    let mut outcomes = Outcomes::make(alloc);
    outcomes.reserve(count as usize)?;
    Ok(outcomes)
}

/// All that a run of so many tasks needs beside its journal.
fn make_rooms(alloc: Global, count: u32, means: Means) -> Result<Rooms, OutOfMemory>
    requires some { 1 ≤ means.lanes }
    requires few { means.lanes ≤ 65535 }
    requires shallow { means.depth ≤ 64 }
    ensures moves { IfOk result (λ rooms. (s : Shared) → IsSharedBy count means s → Follows s [] rooms.moves) }
    ensures room { IfOk result (λ rooms. rooms.moves.parts.pool.room ≡ means.room) }
    ensures steps { IfOk result (λ rooms. rooms.steps.items ≡ replicate count None) }
    ensures items { IfOk result (λ rooms. rooms.outcomes.items ≡ []) }
    ensures outcomes { IfOk result (λ rooms. count ≤ rooms.outcomes.spare) }
{
    let steps = no_steps(alloc, count)?;
    let outcomes = no_outcomes(alloc, count)?;
    match MoveCore::make(alloc, count, means) {
        Ok(moves) => Ok(Rooms {
            moves,
            steps,
            outcomes,
        }),
        Err(OutOfMemory) => Err(OutOfMemory),
    }
}

/// Makes room in the journal for all that may come, and makes what else the run needs.
fn reserve(
    alloc: Global,
    journal: &mut Journal,
    entries: usize,
    count: u32,
    means: Means,
) -> Result<Rooms, OutOfMemory>
    requires some { 1 ≤ means.lanes }
    requires few { means.lanes ≤ 65535 }
    requires shallow { means.depth ≤ 64 }
    ensures items { journal.new.items ≡ journal.old.items }
    ensures journal { OnOk result (entries ≤ journal.new.spare) }
    ensures moves { IfOk result (λ rooms. (s : Shared) → IsSharedBy count means s → Follows s [] rooms.moves) }
    ensures room { IfOk result (λ rooms. rooms.moves.parts.pool.room ≡ means.room) }
    ensures steps { IfOk result (λ rooms. rooms.steps.items ≡ replicate count None) }
    ensures none { IfOk result (λ rooms. rooms.outcomes.items ≡ []) }
    ensures outcomes { IfOk result (λ rooms. count ≤ rooms.outcomes.spare) }
{
    journal.reserve(entries)?;
    make_rooms(alloc, count, means)
}

/// What the tasks of a run share. The queue is shared out to the lanes, at least one job and at most 64 to each.
fn means_of(config: &Config, lanes: u32, bytes: u64) -> Means
    requires { 1 ≤ lanes }
    ensures { result ≡ record {
      lanes = lanes;
      depth = lane_depth config.now.queue lanes;
      queue = config.now.queue;
      parts = config.now.buffers;
      room = bytes;
    } }
{
    Means {
        lanes,
        depth: (config.queue / lanes).max(1).min(64),
        queue: config.queue,
        parts: config.buffers,
        room: bytes,
    }
}

impl Manager {
    /// A run of the tasks of a plan, of which nothing happened, with the journal of the planning. It takes all memory
    /// that the run needs but that of its tasks while they are made and have not ended. After want of memory plan and
    /// journal are handed back.
    pub fn make(
        alloc: Global,
        plan: Plan,
        before: Journal,
        config: &Config,
        limits: &Limits,
        lanes: u32,
    ) -> Result<Manager, (Plan, Journal)>
        requires config { IsValidConfig config.now }
        requires limits { IsValidLimits limits.now }
        requires plan { CanRun limits.now plan.tasks.items }
        requires some { 1 ≤ lanes }
        requires few { lanes ≤ 65535 }
        ensures running { IfOk result (λ m. (s : Shared) × IsSharedOf config.now limits.now lanes plan.tasks.items s
            × IsRunning (record {
              plan = plan;
              planning = before.items;
              config = config.now;
              limits = limits.now;
            }) s [] m) }
        ensures back { IfErr result (λ back. (back.0 ≡ plan) × (back.1.items ≡ before.items)) }
        ensures free { IfOk result (λ m. m.due ≡ Due.Free) }
    {
        let Needs { entries, bytes } = needs_of(plan.tasks.as_slice(), config, limits);
        let means = means_of(config, lanes, bytes);
        let count = plan.tasks.len() as u32;
        let mut journal = before;
        match reserve(alloc, &mut journal, entries, count, means) {
            Ok(
                Rooms {
                    moves,
                    steps,
                    outcomes,
                },
            ) => Ok(Manager {
                alloc,
                plan,
                journal,
                outcomes,
                config: *config,
                limits: *limits,
                moves,
                steps,
                due: Due::Free,
            }),
            Err(OutOfMemory) => Err((plan, journal)),
        }
    }
}
