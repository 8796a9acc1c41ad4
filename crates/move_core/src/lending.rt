//! What a run lends of its tasks and of its parts, and what it gives away.

ghost use Rattle.std.specs.Option.{option_copied, option_map};
ghost use Rattle.std.specs.Prelude.{◌≡◌, ◌==◌, ◌≤◌, ◌<◌, [], ℕ, false, None, Some, IfSome, IsSome, get_or, length};
ghost use Rattle.std.specs.Prelude.{slice_get};
ghost use Rattle.held_parts.specs.Held.{IsHere, held_at, here_at, with_more};
ghost use Rattle.kept_jobs.specs.Tags.{present};
ghost use Rattle.manager_moves.specs.Moves.{next_move};
ghost use Rattle.manager_moves.specs.Runs.{Events, Shared, share};
ghost use Rattle.move_laws.specs.Admits.{IsRunOf};
ghost use Rattle.move_laws.specs.Bytes.{KeepsBytes, no_part, only_at};
ghost use Rattle.move_laws.specs.Calls.{IsLent};
ghost use Rattle.move_laws.specs.Follows.{Follows, outcome_at};
ghost use Rattle.move_laws.specs.Kept.{SeenMoves, state_at, with_parts};
ghost use Rattle.move_laws.specs.Lending.{HasRoomFor, IsGoing, IsLentIn, IsReadNext, failing_in, slot_tags, slot_upload};
ghost use Rattle.move_laws.specs.Steady.{IsSteady};
ghost use Rattle.task_acts.specs.declared.work.Work.{Work};
ghost use Rattle.task_acts.specs.Kept.{etags_of, upload_of};

use crate::move_core::MoveCore;
use manager_moves::Move;
use s3_model::{Outcome, Part, Texts, UploadId};
use std::mem;

fn shown(outcome: &Option<Outcome>) -> Option<&Outcome>
    ensures { option_copied result ≡ outcome.now }
{
    outcome.as_ref()
}

impl MoveCore {
    /// How a task ended, None where it has not.
    pub fn outcome(&self, task: u32) -> Option<&Outcome>
        ensures kept { option_copied result ≡ get_or self.now.outcomes task None }
        ensures follows { (s : Shared) (events : Events) → Follows s events self.now
            → option_copied result ≡ outcome_at task (slice_get s.works task) events }
    {
        let task = task as usize;
        if task < self.outcomes.len() {
            shown(&self.outcomes[task])
        } else {
            None
        }
    }

    /// Whether something failed of a task that is made and has not ended.
    pub fn failing(&self, task: u32) -> bool
        requires { task < length self.now.slots }
        ensures { result ≡ failing_in (state_at self.now task) }
    {
        self.slots[task as usize].failing()
    }

    /// The upload that a reply named of a task that is made and has not ended.
    pub fn upload(&self, task: u32) -> Option<UploadId>
        requires { task < length self.now.slots }
        ensures kept { result ≡ slot_upload (state_at self.now task) }
        ensures follows { (s : Shared) (events : Events) (w : Work) → Follows s events self.now
            → IsGoing s events self.now task w → result ≡ upload_of (share w task events) }
    {
        self.slots[task as usize].upload()
    }

    /// The entity tags of a task's parts, in order of number; they are given away once.
    pub fn etags(&mut self, task: u32) -> Texts
        requires { IsSome (slot_tags (state_at self.old task)) }
        ensures tags { (s : Shared) (events : Events) (w : Work) → Follows s events self.old
            → IsGoing s events self.old task w → result.items ≡ present (etags_of w (share w task events)) }
        ensures follows { (s : Shared) (events : Events) → Follows s events self.old → Follows s events self.new }
        ensures parts { self.new.parts ≡ self.old.parts }
        ensures others { (n : ℕ) → (task == n) ≡ false → state_at self.new n ≡ state_at self.old n }
    {
        self.slots[task as usize].etags()
    }

    /// The part of a piece, where it is here.
    pub fn part(&self, task: u32, number: u32) -> Option<&Part>
        ensures { option_copied result ≡ here_at self.now.parts.slots task number }
    {
        self.parts.part(task, number)
    }

    /// Lends an empty part to the piece that is read next, by the rule of the run.
    pub fn lend_next(&mut self, task: u32, number: u32)
        requires { IsReadNext task number self.old }
        ensures lent { (s : Shared) (events : Events) → IsRunOf s events → Follows s events self.old
            → next_move s events ≡ Move.Read task number → IsLentIn s events task number self.new }
        ensures part { IsLent task number self.old self.new }
        ensures empty { IfSome (here_at self.new.parts.slots task number) (λ part. part.bytes.bytes ≡ []) }
        ensures room { IfSome (here_at self.new.parts.slots task number)
            (λ part. self.old.parts.pool.room ≤ part.bytes.room) }
    {
        let _free = self.has_free();
        self.lend(task, number);
    }

    /// Adds bytes to the part that was lent to a piece.
    pub fn fill(&mut self, task: u32, number: u32, bytes: &[u8])
        requires here { IsHere (held_at self.old.parts.slots task number) }
        requires room { HasRoomFor bytes.now self.old task number }
        ensures grown { here_at self.new.parts.slots task number
            ≡ option_map (with_more bytes.now) (here_at self.old.parts.slots task number) }
        ensures lent { (m : SeenMoves) → IsLent task number m self.old → IsLent task number m self.new }
        ensures bytes { KeepsBytes
            (only_at task number (option_map (with_more bytes.now) (here_at self.old.parts.slots task number)))
            self.old.parts.slots self.new.parts.slots }
    {
        self.parts.add(task, number, bytes);
    }

    /// The part that was lent to a piece is free again: the piece is not read now.
    pub fn take_back(&mut self, task: u32, number: u32)
        requires { IsHere (held_at self.old.parts.slots task number) }
        ensures follows { (s : Shared) (events : Events) → IsLentIn s events task number self.old
            → Follows s events self.new }
        ensures bytes { KeepsBytes no_part self.old.parts.slots self.new.parts.slots }
        ensures steady { IsSteady self.old self.new }
    {
        let part = self.parts.take(task, number);
        self.parts.give_back(task, number, part);
    }

    /// How each task ended.
    pub fn into_outcomes(self) -> Vec<Option<Outcome>>
        ensures outcomes { result.items ≡ self.outcomes }
        ensures count { length result.items ≡ length self.slots }
    {
        let MoveCore { acts, outcomes, .. } = self;
        mem::drop(acts);
        outcomes
    }
}
