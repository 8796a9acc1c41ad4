//! What a run keeps to know its next move.

ghost use Rattle.std.specs.Prelude.{◌≡◌, ◌≤◌, ◌<◌, ◌∷◌, [], true, None, IfOk, length, nat_lt, replicate};
ghost use Rattle.held_parts.specs.Held.{AreSingle};
ghost use Rattle.lane_queues.specs.Lanes.{IsFreest, out_of};
ghost use Rattle.manager_moves.specs.Moves.{next_move};
ghost use Rattle.manager_moves.specs.Runs.{Events, Lined, Shared};
ghost use Rattle.move_core.specs.Means.{IsSharedBy};
ghost use Rattle.move_laws.specs.Follows.{Follows};
ghost use Rattle.move_laws.specs.Steady.{IsSteady};
ghost use Rattle.move_laws.specs.Kept.{IsSound, act_at, call_by, giver, giving_by, has_free, has_outcome, line_by, make_by, rest_by};

use act_queues::ActQueues;
use held_parts::HeldParts;
use lane_queues::LaneQueues;
use manager_moves::Move;
use s3_model::{OutOfMemory, Outcome, Reason, nones};
use std::alloc::Global;
use std::marker::Model;
use task_acts::Act;
use task_slots::{TaskSlot, call_move, giving_move};

/// What a run of many tasks keeps to know its next move: for each lane the jobs out, for each task its state while it
/// is made and unfinished, the sort of the act that it is ready for, and its outcome, which pieces hold a part, and the
/// first cancel. No call goes over the tasks but `make` and `cancel_all`.
#[derive(Drop)]
pub struct MoveCore {
    pub(crate) queue: u32,
    pub(crate) lanes: LaneQueues,
    pub(crate) acts: ActQueues,
    pub(crate) slots: Vec<TaskSlot>,
    pub(crate) outcomes: Vec<Option<Outcome>>,
    pub(crate) parts: HeldParts,
    pub(crate) made: u32,
    pub(crate) lined: u32,
    pub(crate) unfinished: u32,
    pub(crate) reason: Option<Reason>,
}

impl Model for MoveCore {
    ghost use Rattle.move_laws.specs.Kept.{IsSound, SeenMoves};

    ghost Value = { SeenMoves };

    ghost view = { λ m. record {
      queue = m.queue;
      lanes = m.lanes;
      acts = m.acts;
      slots = m.slots.items;
      outcomes = m.outcomes.items;
      parts = m.parts;
      made = m.made;
      lined = m.lined;
      unfinished = m.unfinished;
      reason = m.reason;
    } };

    ghost invariant = { λ m. IsSound m.acts m.slots.items m.outcomes.items m.made };
}

fn empty_slots(alloc: Global, count: u32) -> Result<Vec<TaskSlot>, OutOfMemory>
    ensures { IfOk result (λ slots. slots.items ≡ replicate count None) }
{
    let mut slots = Vec::with_capacity(alloc, count as usize)?;
    for _ in 0..count {
        slots.push_reserved(TaskSlot::empty());
    }
    Ok(slots)
}

/// What the tasks of a run share.
#[derive(Clone, Copy)]
pub struct Means {
    pub lanes: u32,
    /// How many jobs a lane takes.
    pub depth: u32,
    /// How many tasks are made and unfinished at most.
    pub queue: u32,
    /// How many parts there are, and the room of each in bytes.
    pub parts: u32,
    pub room: u64,
}

/// A place for the state of each task, and one for its outcome.
#[derive(Drop)]
struct Places {
    slots: Vec<TaskSlot>,
    outcomes: Vec<Option<Outcome>>,
}

fn make_places(alloc: Global, count: u32) -> Result<Places, OutOfMemory>
    ensures slots { IfOk result (λ places. places.slots.items ≡ replicate count None) }
    ensures outcomes { IfOk result (λ places. places.outcomes.items ≡ replicate count None) }
{
    let slots = empty_slots(alloc, count)?;
    let outcomes = nones(alloc, count as usize)?;
    Ok(Places { slots, outcomes })
}

/// What the tasks of a run are ready for, the places for their states and outcomes, and the parts.
#[derive(Drop)]
struct Tasks {
    acts: ActQueues,
    places: Places,
    parts: HeldParts,
}

fn make_tasks(alloc: Global, count: u32, means: Means) -> Result<Tasks, OutOfMemory>
    ensures acts { IfOk result (λ tasks. tasks.acts ≡ replicate count None) }
    ensures slots { IfOk result (λ tasks. tasks.places.slots.items ≡ replicate count None) }
    ensures outcomes { IfOk result (λ tasks. tasks.places.outcomes.items ≡ replicate count None) }
    ensures lent { IfOk result (λ tasks. tasks.parts.slots ≡ replicate means.parts None) }
    ensures parts { IfOk result (λ tasks. tasks.parts.pool.count ≡ means.parts) }
    ensures room { IfOk result (λ tasks. tasks.parts.pool.room ≡ means.room) }
{
    let places = make_places(alloc, count)?;
    let parts = HeldParts::make(alloc, means.parts, means.room)?;
    match ActQueues::make(alloc, count) {
        Ok(acts) => Ok(Tasks {
            acts,
            places,
            parts,
        }),
        Err(_) => Err(OutOfMemory),
    }
}

/// What is kept of a run of which nothing happened.
fn begin(queue: u32, lanes: LaneQueues, tasks: Tasks) -> MoveCore
    requires { IsSound tasks.acts tasks.places.slots.items tasks.places.outcomes.items 0 }
    ensures { result ≡ record {
      queue = queue;
      lanes = lanes;
      acts = tasks.acts;
      slots = tasks.places.slots.items;
      outcomes = tasks.places.outcomes.items;
      parts = tasks.parts;
      made = 0;
      lined = 0;
      unfinished = 0;
      reason = None;
    } }
{
    let Tasks {
        acts,
        places,
        parts,
    } = tasks;
    MoveCore {
        queue,
        lanes,
        acts,
        slots: places.slots,
        outcomes: places.outcomes,
        parts,
        made: 0,
        lined: 0,
        unfinished: 0,
        reason: None,
    }
}

impl MoveCore {
    /// A run of so many tasks, of which nothing happened. It takes all the memory that it needs but that of the tasks'
    /// states.
    pub fn make(alloc: Global, count: u32, means: Means) -> Result<MoveCore, OutOfMemory>
        requires some { 1 ≤ means.lanes }
        requires few { means.lanes ≤ 65535 }
        requires shallow { means.depth ≤ 64 }
        ensures follows { IfOk result (λ core. (s : Shared) → IsSharedBy count means s → Follows s [] core) }
        ensures room { IfOk result (λ core. core.parts.pool.room ≡ means.room) }
    {
        let lanes = LaneQueues::make(alloc, means.lanes, means.depth)?;
        match make_tasks(alloc, count, means) {
            Ok(tasks) => Ok(begin(means.queue, lanes, tasks)),
            Err(OutOfMemory) => Err(OutOfMemory),
        }
    }

    /// Whether a task has ended.
    fn has_outcome(&self, task: u32) -> bool
        ensures { result ≡ has_outcome self.now task }
    {
        let task = task as usize;
        task < self.outcomes.len() && self.outcomes[task].is_some()
    }

    /// The act that a task is ready for.
    fn act(&self, task: u32) -> Option<Act>
        ensures { result ≡ act_at self.now task }
    {
        let task = task as usize;
        if task < self.slots.len() {
            self.slots[task].ready()
        } else {
            None
        }
    }

    /// The line of the first task that has none, once the task has ended.
    fn line(&self) -> Option<Move>
        ensures { result ≡ line_by self.now }
    {
        if self.has_outcome(self.lined) {
            Some(Move::Line(self.lined))
        } else {
            None
        }
    }

    /// Whether a part is free.
    pub(crate) fn has_free(&self) -> bool
        ensures free { result ≡ has_free self.now }
        ensures single { AreSingle self.now.parts.slots }
    {
        self.parts.has_free()
    }

    /// The lane that takes the next job.
    fn freest(&self) -> u32
        ensures { IsFreest self.now.lanes result }
    {
        self.lanes.freest()
    }

    /// The call on files of the least task that can make one, where a part is free or none is.
    fn call(&self, free: bool) -> Option<Move>
        ensures { result ≡ call_by self.now free }
    {
        let task = self.acts.first_call(free)?;
        let act = self.act(task)?;
        call_move(task, act)
    }

    /// The least task that can give a job to that lane, where a part is free or none is.
    fn first_giver(&self, lane: u32, free: bool) -> Option<u32>
        requires { lane < length self.now.lanes.jobs }
        ensures { result ≡ giver self.now lane free }
    {
        let room = self.lanes.has_room(lane);
        self.acts.first_giving(room, free)
    }

    /// The job of the least task that can give one, to that lane, where a part is free or none is.
    fn giving(&self, lane: u32, free: bool) -> Option<Move>
        requires { lane < length self.now.lanes.jobs }
        ensures { result ≡ giving_by self.now lane free }
    {
        let task = self.first_giver(lane, free)?;
        let act = self.act(task)?;
        giving_move(lane, task, act)
    }

    /// The next task that is made, while fewer are unfinished than the queue holds.
    fn making(&self) -> Option<Move>
        ensures { result ≡ make_by self.now }
    {
        if (self.made as usize) < self.slots.len() && self.unfinished < self.queue {
            Some(Move::Make(self.made))
        } else {
            None
        }
    }

    /// Whether a job is out.
    fn has_jobs_out(&self) -> bool
        ensures { result ≡ nat_lt 0 (out_of self.now.lanes) }
    {
        self.lanes.out() > 0
    }

    /// A wait, where a job is out, and else the end.
    fn rest(&self) -> Move
        ensures { result ≡ rest_by self.now }
    {
        if self.has_jobs_out() {
            Move::Wait
        } else {
            Move::End
        }
    }

    /// The next move, by the rule of a run.
    pub fn next(&self) -> Move
        ensures { (s : Shared) (events : Events) → Follows s events self.now → result ≡ next_move s events }
    {
        if let Some(line) = self.line() {
            return line;
        }
        let free = self.has_free();
        if let Some(call) = self.call(free) {
            return call;
        }
        let lane = self.freest();
        if let Some(giving) = self.giving(lane, free) {
            return giving;
        }
        if let Some(making) = self.making() {
            return making;
        }
        self.rest()
    }

    /// The line of the first task that had none was due.
    pub fn lined(&mut self)
        requires { has_outcome self.old self.old.lined ≡ true }
        ensures follows { (s : Shared) (events : Events) → Follows s events self.old
            → Follows s (Lined ∷ events) self.new }
        ensures parts { self.new.parts ≡ self.old.parts }
        ensures steady { IsSteady self.old self.new }
    {
        self.lined += 1;
    }
}
