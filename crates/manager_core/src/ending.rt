//! Lines, cancels, and the end of a run.

ghost use Rattle.std.specs.Prelude.{◌≡◌, ◌≢◌, ◌≤◌, ◌<◌, ◌+◌, ◌++◌, [], ◌∷◌, ℕ, None, Some, IsSome, List, get_or};
ghost use Rattle.std.specs.Prelude.{OnErr, OnOk, length, map};
ghost use Rattle.manager_moves.specs.Runs.{Events, Lined, Shared, Stopped};
ghost use Rattle.move_laws.specs.Bytes.{KeepsBytes, no_part};
ghost use Rattle.manager_core.specs.Answers.{CanGoOn, IsDue};
ghost use Rattle.manager_core.specs.Cells.{KeepsCells};
ghost use Rattle.manager_core.specs.Ended.{AreOutcomes};
ghost use Rattle.manager_core.specs.Kept.{jobs_at, with_jobs};
ghost use Rattle.manager_core.specs.Running.{IsRunning, KeepsRun, RunsOn, Start};
ghost use Rattle.manager_core.specs.Steps.{HeardBy};

use crate::due::Due;
use crate::manager::Manager;
use manager_moves::Move;
use s3_model::{Journal, OutOfMemory, Outcome, Outcomes, Plan, Reason};

/// Moves an outcome behind the others.
fn give(ended: &mut Option<Outcome>, outcomes: &mut Outcomes)
    requires some { IsSome ended.old }
    requires room { 1 ≤ outcomes.old.spare }
    ensures items { map Some outcomes.new.items ≡ map Some outcomes.old.items ++ ended.old ∷ [] }
    ensures spare { outcomes.new.spare + 1 ≡ outcomes.old.spare }
{
    let Some(outcome) = ended.take() else {
        unreachable!()
    };
    outcomes.push(outcome);
}

/// How each task ended, in their order.
fn collect(outcomes: &mut Outcomes, ended: &mut [Option<Outcome>])
    requires none { outcomes.old.items ≡ [] }
    requires room { length ended.old ≤ outcomes.old.spare }
    requires ended { (n : ℕ) → n < length ended.old → IsSome (get_or ended.old n None) }
    ensures { map Some outcomes.new.items ≡ ended.old }
{
    for index in 0..ended.len() {
        give(&mut ended[index], outcomes);
    }
}

impl Manager {
    /// The line was due that the next move was.
    pub fn lined(&mut self)
        requires { (task : ℕ) × IsDue (Move.Line task) self.old }
        ensures running { RunsOn Lined self.old self.new }
        ensures cells { KeepsCells self.old self.new }
        ensures parts { self.new.moves.parts ≡ self.old.moves.parts }
        ensures free { self.new.due ≡ Due.Free }
    {
        self.due = Due::Free;
        self.moves.lined();
    }

    /// The run is cancelled. Tasks that are made and have not ended hear of it, unless an earlier cancel came.
    pub fn cancel_all(&mut self, reason: Reason)
        requires goes_on { CanGoOn self.old }
        requires reason { reason ≢ Reason.TaskFailed }
        ensures running { RunsOn (Stopped reason) self.old self.new }
        ensures cells { KeepsCells self.old self.new }
        ensures bytes { KeepsBytes no_part self.old.moves.parts.slots self.new.moves.parts.slots }
        ensures free { self.new.due ≡ Due.Free }
    {
        self.drop_move();
        self.moves.cancel_all(reason);
        for task in 0..self.steps.len() as u32 {
            self.settle(task);
        }
    }

    /// The jobs of a task that are out hear that reason, unless they heard another. After want of memory nothing has
    /// changed.
    pub fn cancel_cell(&mut self, task: u32, reason: Reason) -> Result<(), OutOfMemory>
        requires { task < length self.old.steps }
        ensures kept { OnErr result (self.new ≡ self.old) }
        ensures heard { OnOk result (HeardBy (jobs_at self.old task) (jobs_at self.new task)) }
        ensures others { self.new ≡ with_jobs task (jobs_at self.new task) self.old }
        ensures running { KeepsRun self.old self.new }
    {
        self.steps[task as usize].cancel(self.alloc, reason)
    }

    /// The plan, how each of its tasks ended, and the journal, once the next move was the end.
    pub fn finish(self) -> (Plan, Outcomes, Journal)
        requires { IsDue Move.End self }
        ensures plan { result.0 ≡ self.plan }
        ensures outcomes { (start : Start) (s : Shared) (events : Events) → IsRunning start s events self
            → AreOutcomes s events result.1.items }
        ensures journal { result.2 ≡ self.journal }
    {
        let Manager {
            plan,
            journal,
            mut outcomes,
            moves,
            ..
        } = self;
        let mut ended = moves.into_outcomes();
        collect(&mut outcomes, &mut ended);
        (plan, outcomes, journal)
    }
}
