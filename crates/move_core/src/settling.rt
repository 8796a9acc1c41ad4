//! A task that moves: its state is taken out, and put back with what comes of it.

ghost use Rattle.std.specs.Prelude.{◌≡◌, ◌≤◌, ◌<◌, ◌&&◌, ◌||◌, ℕ, true, Some, IsSome, is_some, length, not, if◌then◌else◌};
ghost use Rattle.held_parts.specs.Held.{IsSamePool};
ghost use Rattle.move_laws.specs.Calls.{IsFreedWhere};
ghost use Rattle.move_laws.specs.Follows.{IsTaskIn};
ghost use Rattle.move_laws.specs.Freed.{AreWithJobs};
ghost use Rattle.move_laws.specs.Kept.{IsSound, ended_count, state_at, with_fewer, with_outcome, with_parts, with_slot, with_sort};
ghost use Rattle.move_laws.specs.Kept.{with_state, without_state};
ghost use Rattle.task_acts.specs.declared.work.Work.{Work};
ghost use Rattle.task_acts.specs.Failures.{is_stopped};
ghost use Rattle.task_acts.specs.Histories.{History};

use crate::move_core::MoveCore;
use act_queues::ActSort;
use s3_model::Outcome;
use std::mem;
use task_core::TaskState;
use task_slots::{Settled, TaskSlot, free_parts, settle, sort_of};

/// Whether a task has failed that had not stopped before.
pub(crate) fn fails(stopped: bool, state: &TaskState) -> bool
    ensures { result ≡ (not stopped && state.now.causes.failing) }
{
    !stopped && state.failing()
}

impl MoveCore {
    /// Whether a task has failed or heard of a cancel.
    pub(crate) fn is_stopped(&self, state: &TaskState) -> bool
        ensures { result ≡ (state.now.causes.failing || is_some self.now.reason) }
    {
        state.failing() || self.reason.is_some()
    }

    /// The state of a task, which is not in its slot then.
    pub(crate) fn take_state(&mut self, task: u32) -> Box<TaskState>
        requires { IsSome (state_at self.old task) }
        ensures state { state_at self.old task ≡ Some result.value }
        ensures rest { self.new ≡ without_state task self.old }
        ensures sound { IsSound self.old.acts self.old.slots self.old.outcomes self.old.made }
    {
        self.slots[task as usize].take()
    }

    /// Frees the parts of a task, where it has stopped just now.
    pub(crate) fn free_where(&mut self, stops: bool, state: &mut TaskState, task: u32)
        requires { stops ≡ true → AreWithJobs self.old.parts task state.old }
        ensures rest { self.new ≡ with_parts self.new.parts self.old }
        ensures freed { IsFreedWhere stops task state.old self.old.parts.slots self.new.parts.slots }
        ensures pool { IsSamePool self.old.parts.pool self.new.parts.pool }
        ensures known { (room : ℕ) (w : Work) (h : History) → (stops ≡ true → is_stopped w h ≡ true)
            → IsTaskIn room w h state.old → IsTaskIn room w h state.new }
        ensures tags { state.new.tags ≡ state.old.tags }
    {
        if stops {
            free_parts(&mut self.parts, state, task);
        }
    }

    /// A task is ready for an act of that sort, or for none.
    fn put_sort(&mut self, task: u32, ready: Option<ActSort>)
        requires { task < length self.old.slots }
        ensures { self.new ≡ with_sort task ready self.old }
    {
        self.acts.put(task, ready);
    }

    pub(crate) fn put_slot(&mut self, task: u32, slot: TaskSlot)
        requires { task < length self.old.slots }
        ensures { self.new ≡ with_slot task slot self.old }
    {
        mem::drop(mem::replace(&mut self.slots[task as usize], slot));
    }

    pub(crate) fn put_outcome(&mut self, task: u32, ended: Option<Outcome>)
        requires { task < length self.old.slots }
        ensures { self.new ≡ with_outcome task ended self.old }
    {
        mem::drop(mem::replace(&mut self.outcomes[task as usize], ended));
    }

    /// One unfinished task less, if it has ended.
    fn count_end(&mut self, ended: bool)
        requires { (if ended then 1 else 0) ≤ self.old.unfinished }
        ensures { self.new ≡ with_fewer ended self.old }
    {
        if ended {
            self.unfinished -= 1;
        }
    }

    /// Puts the state of a task back that moved, with the sort of the act that it is ready for. Once it has ended, its
    /// outcome stays in place of its state.
    pub(crate) fn put_state(&mut self, task: u32, state: Box<TaskState>)
        requires there { task < length self.old.slots }
        requires counted { ended_count state.value ≤ self.old.unfinished }
        ensures { self.new ≡ with_state task state.value self.old }
    {
        let ready = sort_of(&state);
        let Settled { slot, ended } = settle(state);
        self.put_sort(task, ready);
        self.count_end(ended.is_some());
        self.put_slot(task, slot);
        self.put_outcome(task, ended);
    }
}
