//! Jobs that are given to lanes.

ghost use Rattle.std.specs.Prelude.{◌≡◌, ◌≤◌, ◌<◌, ◌++◌, ◌∷◌, [], true, false, Some, None, is_some, length, slice_get};
ghost use Rattle.held_parts.specs.Held.{IsSamePool, held_at};
ghost use Rattle.kept_jobs.specs.Slots.{job_at};
ghost use Rattle.lane_queues.specs.Lanes.{jobs_in, out_in, with_jobs};
ghost use Rattle.manager_moves.specs.Runs.{Events, Sent, Shared, share, with_taken};
ghost use Rattle.move_laws.specs.Admits.{Admits, GoesOn, IsRunOf};
ghost use Rattle.move_laws.specs.Bytes.{KeepsBytes, no_part};
ghost use Rattle.move_laws.specs.Calls.{IsPartFor, bytes_held};
ghost use Rattle.move_core.specs.Given.{again_of, part_with};
ghost use Rattle.move_laws.specs.Follows.{Follows};
ghost use Rattle.move_laws.specs.Kept.{kept_at, with_lanes, with_parts};
ghost use Rattle.move_laws.specs.Steady.{IsSteady};
ghost use Rattle.part_tables.specs.Finding.{FindsPart};
ghost use Rattle.part_tables.specs.Tables.{IsPutWhere};
ghost use Rattle.job_terms.specs.Buffers.{holds_buffer};
ghost use Rattle.task_acts.specs.declared.acts.Act.TheVariants as act;
ghost use Rattle.task_acts.specs.declared.work.Work.{Work};
ghost use Rattle.task_acts.specs.Histories.{History};
ghost use Rattle.task_acts.specs.Kept.{kept_job};
ghost use Rattle.task_core.specs.Machine.{Stands};

use crate::move_core::MoveCore;
use jobs::Job;
use s3_model::{JobId, Op, Part};
use task_acts::Act;
use task_core::TaskState;
use task_slots::part_for;

/// What a job that is given takes along.
#[derive(Drop)]
pub enum Given {
    /// The job that came back cut short, with its part, without its cell and behind its attempts.
    Again(Job),
    /// A job that was not given before, and the part that it takes, if it takes one.
    First(Option<Part>),
}

impl MoveCore {
    /// The job that is kept, or the part that a new one takes.
    fn take_along(&mut self, state: &mut TaskState, task: u32, op: Op, number: u32) -> Given
        requires { holds_buffer op ≡ true → FindsPart (is_some (job_at state.old.kept op number))
            self.old.parts.pool.count self.old.parts.slots task number }
        ensures rest { self.new ≡ with_parts self.new.parts self.old }
        ensures again { again_of result ≡ job_at state.old.kept op number }
        ensures state { (w : Work) (history : History) → Stands w history state.old
            → Stands w (with_taken w op number history) state.new }
        ensures held { IsPutWhere (holds_buffer op) task number (Some None) self.old.parts.slots self.new.parts.slots }
        ensures pool { IsSamePool self.old.parts.pool self.new.parts.pool }
        ensures part { again_of result ≡ None
            → IsPartFor op self.old.parts.pool.room (held_at self.old.parts.slots task number) (part_with result) }
        ensures tags { state.new.tags ≡ state.old.tags }
    {
        match state.kept(op, number) {
            Some(job) => Given::Again(job),
            None => Given::First(part_for(&mut self.parts, task, op, number)),
        }
    }

    /// A job goes to a lane that has room.
    fn push(&mut self, lane: u32, job: JobId)
        requires lane { lane < length self.old.lanes.jobs }
        requires room { out_in self.old.lanes lane < self.old.lanes.depth }
        ensures { self.new ≡ with_lanes
            (with_jobs self.old.lanes lane (jobs_in self.old.lanes lane ++ job ∷ [])) self.old }
    {
        self.lanes.push(lane, job);
    }

    /// The job of that op and number was given to that lane, as the next move was. A job that was kept is handed
    /// back, to be given again. Else the part is that is to go with it: the one into which the bytes were read that
    /// it sends, or an empty one for those that come.
    pub fn sent(&mut self, task: u32, op: Op, number: u32, lane: u32) -> Given
        requires { Admits (Sent task op number lane) self.old }
        ensures follows { GoesOn (Sent task op number lane) self.old self.new }
        ensures again { again_of result ≡ kept_at self.old task op number }
        ensures known { (s : Shared) (events : Events) (w : Work) → IsRunOf s (Sent task op number lane ∷ events)
            → Follows s events self.old → slice_get s.works task ≡ Some w
            → again_of result ≡ kept_job w (share w task events) (act.Send op number) }
        ensures taken { is_some (part_with result) ≡ holds_buffer op }
        ensures part { again_of result ≡ None
            → IsPartFor op self.old.parts.pool.room (held_at self.old.parts.slots task number) (part_with result) }
        ensures bytes { KeepsBytes no_part self.old.parts.slots self.new.parts.slots }
        ensures steady { IsSteady self.old self.new }
    {
        let _free = self.has_free();
        let mut state = self.take_state(task);
        let given = self.take_along(&mut state, task, op, number);
        state.gave(Act::Send { op, number });
        let job = JobId {
            task: Some(task),
            op,
            number,
        };
        self.push(lane, job);
        self.put_state(task, state);
        given
    }
}
