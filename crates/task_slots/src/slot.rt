//! The place for the state of one task.

ghost use Rattle.std.specs.Prelude.{◌≡◌, Some, None, IsSome, IsSomeAnd, is_some};
ghost use Rattle.kept_jobs.specs.Tags.{present};
ghost use Rattle.manager_moves.specs.Parts.{is_kept};
ghost use Rattle.move_laws.specs.Kept.{act_in, slot_for, sort_by, sort_in};
ghost use Rattle.move_laws.specs.Lending.{IsUntagged, failing_in, slot_tags, slot_upload};
ghost use Rattle.part_changes.specs.Changes.{comes_down};
ghost use Rattle.task_acts.specs.declared.work.Work.{Work};
ghost use Rattle.task_acts.specs.Histories.{History};
ghost use Rattle.task_acts.specs.Kept.{etags_of};
ghost use Rattle.task_core.specs.Machine.{SeenTask, Stands};

use act_queues::ActSort;
use s3_model::{Op, Outcome, Texts, UploadId};
use std::marker::Model;
use task_acts::{Act, Stage};
use task_core::TaskState;

/// The state of a task, where it is made and has not ended. It is as wide as a pointer.
#[derive(Drop)]
pub struct TaskSlot {
    state: Option<Box<TaskState>>,
}

impl Model for TaskSlot {
    ghost use Rattle.std.specs.Box.{box_value};
    ghost use Rattle.std.specs.Option.{option_map};
    ghost use Rattle.std.specs.Prelude.{Option};
    ghost use Rattle.task_core.specs.Machine.{SeenTask};

    ghost Value = { Option SeenTask };

    ghost view = { λ t. option_map box_value t.state };
}

impl TaskSlot {
    /// No state.
    pub fn empty() -> TaskSlot
        ensures { result ≡ None }
    {
        TaskSlot { state: None }
    }

    /// Whether there is a state.
    pub fn has_state(&self) -> bool
        ensures { result ≡ is_some self.now }
    {
        self.state.is_some()
    }

    /// The state, where there is one; the slot is empty then.
    pub fn take(&mut self) -> Box<TaskState>
        requires { IsSome self.old }
        ensures state { self.old ≡ Some result.value }
        ensures empty { self.new ≡ None }
    {
        let Some(state) = self.state.take() else {
            unreachable!()
        };
        state
    }

    /// Whether something of the task failed.
    pub fn failing(&self) -> bool
        ensures { result ≡ failing_in self.now }
    {
        match &self.state {
            Some(state) => state.failing(),
            None => false,
        }
    }

    /// The upload that a reply named.
    pub fn upload(&self) -> Option<UploadId>
        ensures { result ≡ slot_upload self.now }
    {
        match &self.state {
            Some(state) => state.upload(),
            None => None,
        }
    }

    /// The entity tags of the parts that came; the state has them no longer.
    pub fn etags(&mut self) -> Texts
        requires { IsSome (slot_tags self.old) }
        ensures tags { (w : Work) (h : History) (t : SeenTask) → self.old ≡ Some t → Stands w h t
            → result.items ≡ present (etags_of w h) }
        ensures stands { (t : SeenTask) → self.old ≡ Some t → IsSomeAnd self.new (IsUntagged t) }
    {
        let Some(state) = &mut self.state else {
            unreachable!()
        };
        state.etags()
    }

    /// The act that the task is ready for.
    pub fn ready(&self) -> Option<Act>
        ensures { result ≡ act_in self.now }
    {
        match &self.state {
            Some(state) => state.ready(),
            None => None,
        }
    }
}

/// Whether the bytes of a job's piece come with it.
pub fn comes_down(op: Op) -> bool
    ensures { result ≡ comes_down op }
{
    matches!(op, Op::Get)
}

fn is_kept(stage: Stage) -> bool
    ensures { result ≡ is_kept stage }
{
    matches!(stage, Stage::Kept)
}

/// What an act needs.
fn sort_in(state: &TaskState, act: Act) -> ActSort
    ensures { result ≡ sort_in state.now act }
{
    match act {
        Act::Send { op, .. } => {
            if comes_down(op) && !is_kept(state.stage(act)) {
                ActSort::Get
            } else {
                ActSort::Job
            }
        }
        Act::Read { .. } => ActSort::Read,
        Act::Assemble | Act::Place { .. } | Act::Rename => ActSort::Call,
        Act::DropTemp | Act::Remove | Act::Stamp => ActSort::Call,
    }
}

/// What the act needs that a task is ready for.
pub fn sort_of(state: &TaskState) -> Option<ActSort>
    ensures { result ≡ sort_by state.now }
{
    match state.ready() {
        Some(act) => Some(sort_in(state, act)),
        None => None,
    }
}

fn has_ended(state: &TaskState) -> bool
    ensures { result ≡ is_some state.now.outcome }
{
    state.outcome().is_some()
}

/// The slot of a task, and how the task ended, if it did.
pub struct Settled {
    pub slot: TaskSlot,
    pub ended: Option<Outcome>,
}

/// The slot of a task is empty once the task has ended.
pub fn settle(state: Box<TaskState>) -> Settled
    ensures slot { result.slot ≡ slot_for state.value }
    ensures ended { result.ended ≡ state.value.outcome }
{
    if has_ended(&state) {
        let ended = Box::into_inner(state).end();
        Settled {
            slot: TaskSlot::empty(),
            ended: Some(ended),
        }
    } else {
        Settled {
            slot: TaskSlot { state: Some(state) },
            ended: None,
        }
    }
}
