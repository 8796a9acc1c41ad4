//! Jobs that come back.

ghost use Rattle.std.specs.Prelude.{◌≡◌, ◌≤◌, ◌<◌, ◌&&◌, ◌||◌, not, true, Some, None, IfSome, drop, is_some, length};
ghost use Rattle.held_parts.specs.Held.{IsSamePool, held_at};
ghost use Rattle.lane_queues.specs.Lanes.{jobs_in, with_jobs};
ghost use Rattle.manager_moves.specs.Runs.{Back};
ghost use Rattle.move_laws.specs.Admits.{Admits, GoesOn};
ghost use Rattle.move_laws.specs.Bytes.{KeepsBytes, part_by};
ghost use Rattle.move_laws.specs.Calls.{IsBrought};
ghost use Rattle.move_laws.specs.Kept.{with_lanes, with_parts};
ghost use Rattle.move_laws.specs.Steady.{IsSteady};
ghost use Rattle.part_changes.specs.Changes.{comes_down};

use crate::move_core::MoveCore;
use crate::settling::fails;
use jobs::Carried;
use s3_model::{Op, Part};
use task_core::TaskState;
use task_slots::comes_down;

impl MoveCore {
    /// Whether the part of a job that came back is still wanted: its bytes came with it, and the task goes on.
    fn stays(&self, op: Op, state: &TaskState) -> bool
        ensures { result ≡ (comes_down op && not (state.now.causes.failing || is_some self.now.reason)) }
    {
        comes_down(op) && !self.is_stopped(state)
    }

    /// The part that came back with the job of a piece is here from now on, where it stays, and else free.
    fn bring(&mut self, task: u32, number: u32, part: Option<Part>, stays: bool)
        requires away { is_some part ≡ true → held_at self.old.parts.slots task number ≡ Some None }
        requires room { IfSome part (λ x. self.old.parts.pool.room ≤ x.bytes.room) }
        ensures rest { self.new ≡ with_parts self.new.parts self.old }
        ensures held { IsBrought task number part stays self.old.parts.slots self.new.parts.slots }
        ensures pool { IsSamePool self.old.parts.pool self.new.parts.pool }
    {
        let Some(part) = part else {
            return;
        };
        if stays {
            self.parts.put(task, number, part);
        } else {
            self.parts.give_back(task, number, part);
        }
    }

    /// The oldest job of a lane is out no longer.
    fn pop(&mut self, lane: u32)
        requires { lane < length self.old.lanes.jobs }
        ensures { self.new ≡ with_lanes
            (with_jobs self.old.lanes lane (drop 1 (jobs_in self.old.lanes lane))) self.old }
    {
        let _job = self.lanes.pop(lane);
    }

    /// The oldest job of a lane came back. Its part stays with it where it is kept to be given again, and here
    /// where it came with the bytes of a piece of a task that goes on; else it is free. So are those of a task that
    /// fails, but for jobs that are out.
    pub fn back(&mut self, lane: u32, carried: Carried)
        requires admitted { Admits (Back lane carried) self.old }
        requires room { IfSome carried.job.part (λ part. self.old.parts.pool.room ≤ part.bytes.room) }
        ensures goes_on { GoesOn (Back lane carried) self.old self.new }
        ensures bytes { KeepsBytes (part_by carried) self.old.parts.slots self.new.parts.slots }
        ensures steady { IsSteady self.old self.new }
    {
        let id = carried.id();
        let Some(task) = id.task else { unreachable!() };
        self.pop(lane);
        let mut state = self.take_state(task);
        let stopped = self.is_stopped(&state);
        let part = state.came(carried);
        let stays = self.stays(id.op, &state);
        self.bring(task, id.number, part, stays);
        let stops = fails(stopped, &state);
        self.free_where(stops, &mut state, task);
        self.put_state(task, state);
    }
}
