//! Jobs that are given to lanes.

ghost use Rattle.std.specs.Prelude.{◌≡◌, ◌==◌, ◌&&◌, ◌^◌, ◌<◌, ◌∷◌, ℕ, false, List, IsSome, None, get_or};
ghost use Rattle.manager_moves.specs.Runs.{Events, Sent, Shared, share};
ghost use Rattle.move_laws.specs.Follows.{Follows};
ghost use Rattle.move_laws.specs.Kept.{state_at};
ghost use Rattle.move_laws.specs.Lending.{IsGoing, slot_tags};
ghost use Rattle.job_terms.specs.Ops.{is_op};
ghost use Rattle.job_terms.specs.Jobs.{job_of};
ghost use Rattle.move_laws.specs.Bytes.{KeepsBytes, no_part};
ghost use Rattle.manager_core.specs.Answers.{IsDue, IsJobDue};
ghost use Rattle.manager_core.specs.Cells.{CellStays, KeepsCells};
ghost use Rattle.manager_core.specs.Formed.{IsJobFor};
ghost use Rattle.manager_core.specs.Kept.{SeenManager};
ghost use Rattle.manager_core.specs.Running.{IsRunning, KeepsRun, Start};
ghost use Rattle.manager_core.specs.Sending.{CanBeFormed, HasSentFirst};
ghost use Rattle.s3_model.specs.declared.requests.Op.{Op as OneOp};
ghost use Rattle.task_acts.specs.declared.work.Work.{Work};
ghost use Rattle.kept_jobs.specs.Steps.{HasTags};

use crate::due::{Due, due_lane};
use crate::manager::Manager;
use crate::steps::StepSlot;
use jobs::Job;
use manager_moves::Move;
use move_core::{Given, MoveCore};
use s3_model::{Event, JobId, Op, Part, Task, Texts};

fn id_of(task: u32, op: Op, number: u32) -> JobId
    ensures { result ≡ job_of task op number }
{
    JobId {
        task: Some(task),
        op,
        number,
    }
}

/// The size of a task fits its type.
fn see_size(task: &Task)
    ensures { task.now.size < 2 ^ 64 }
{
    let _size = task.size;
}

/// The entity tags that a job joins, if it joins parts.
fn tags_for(moves: &mut MoveCore, task: u32, op: Op) -> Option<Texts>
    requires { op ≡ Op.Complete → IsSome (slot_tags (state_at moves.old task)) }
    ensures tags { (s : Shared) (events : Events) (w : Work) → Follows s events moves.old
        → IsGoing s events moves.old task w → HasTags w (share w task events) op result }
    ensures follows { (s : Shared) (events : Events) → Follows s events moves.old → Follows s events moves.new }
    ensures parts { moves.new.parts ≡ moves.old.parts }
    ensures others { (n : ℕ) → (is_op op Op.Complete && (task == n)) ≡ false
        → state_at moves.new n ≡ state_at moves.old n }
{
    if matches!(op, Op::Complete) {
        Some(moves.etags(task))
    } else {
        None
    }
}

/// The job at its first giving, with the part that it takes.
fn first_job(
    moves: &mut MoveCore,
    steps: &mut Vec<StepSlot>,
    task: u32,
    op: Op,
    number: u32,
    part: Option<Part>,
) -> Job
    requires { CanBeFormed task op number part moves.old steps.old.items }
    ensures running { (start : Start) (s : Shared) (events : Events) (lane : ℕ) (m : SeenManager)
        → HasSentFirst start s events task op number lane part m moves.old steps.old.items
        → IsRunning start s events
        (record m { moves = moves.new; steps = steps.new.items; due = Due.Job task op number lane }) }
    ensures job { (start : Start) (s : Shared) (events : Events) (lane : ℕ) (m : SeenManager)
        → HasSentFirst start s events task op number lane part m moves.old steps.old.items
        → IsJobFor s events task op number m result }
    ensures cells { (n : ℕ) → CellStays (get_or steps.old.items n None) (get_or steps.new.items n None) }
    ensures parts { moves.new.parts ≡ moves.old.parts }
{
    let id = id_of(task, op, number);
    let upload = moves.upload(task);
    let etags = tags_for(moves, task, op);
    steps[task as usize].form(step_jobs::Given {
        id,
        part,
        upload,
        etags,
    })
}

impl Manager {
    /// The job that is to be given, as the next move was: the one that was kept of a first giving, or a new one, with
    /// the part that it takes.
    pub fn job(&mut self, task: u32, op: Op, number: u32) -> Job
        requires { (lane : ℕ) × IsDue (Move.Give task op number lane) self.old }
        ensures running { KeepsRun self.old self.new }
        ensures job { (start : Start) (s : Shared) (events : Events) → IsRunning start s events self.old
            → IsJobFor s events task op number self.old result }
        ensures cells { KeepsCells self.old self.new }
        ensures bytes { KeepsBytes no_part self.old.moves.parts.slots self.new.moves.parts.slots }
        ensures due { (lane : ℕ) → self.old.due ≡ Due.Next (Move.Give task op number lane)
            → self.new.due ≡ Due.Job task op number lane }
    {
        let lane = due_lane(self.due);
        see_size(self.task(task));
        let given = self.moves.sent(task, op, number, lane);
        self.due = Due::Job {
            task,
            op,
            number,
            lane,
        };
        match given {
            Given::Again(job) => job,
            Given::First(part) => {
                first_job(&mut self.moves, &mut self.steps, task, op, number, part)
            }
        }
    }

    /// The job that was formed was given to that lane.
    pub fn gave(&mut self, lane: u32)
        requires { IsJobDue lane self.old }
        ensures running { (start : Start) (s : Shared) (events : Events) (task number : ℕ) (of_op : OneOp)
            → IsRunning start s events self.old → self.old.due ≡ Due.Job task of_op number lane
            → IsRunning start s (Sent task of_op number lane ∷ events) self.new }
        ensures cells { KeepsCells self.old self.new }
        ensures moves { self.new.moves ≡ self.old.moves }
        ensures free { self.new.due ≡ Due.Free }
    {
        let Due::Job {
            task,
            op,
            number,
            ..
        } = self.due
        else {
            unreachable!()
        };
        self.due = Due::Free;
        let job = id_of(task, op, number);
        self.journal.push(Event::Given { job, lane });
    }
}
