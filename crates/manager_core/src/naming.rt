//! The next move.

ghost use Rattle.std.specs.Prelude.{◌≡◌, ◌≤◌, [], ℕ, IfSome, List, Some, slice_get};
ghost use Rattle.manager_moves.specs.Moves.{next_move};
ghost use Rattle.manager_moves.specs.Runs.{Events, Shared};
ghost use Rattle.move_laws.specs.Admits.{IsRunOf};
ghost use Rattle.move_laws.specs.Follows.{Follows};
ghost use Rattle.move_laws.specs.Lending.{IsReadNext};
ghost use Rattle.move_laws.specs.Steady.{IsSteady};
ghost use Rattle.manager_core.specs.Answers.{CanGoOn, read_at, read_in, read_part};
ghost use Rattle.move_laws.specs.Bytes.{KeepsBytes, no_part};
ghost use Rattle.step_jobs.specs.Formed.{range_at};
ghost use Rattle.task_acts.specs.declared.work.Work.{Work};
ghost use Rattle.manager_core.specs.Cells.{KeepsCells};
ghost use Rattle.manager_core.specs.Running.{FollowsBut, HasReadPart, IsRunning, KeepsRun, Start};

use crate::due::Due;
use crate::manager::Manager;
use manager_moves::Move;
use move_core::MoveCore;

/// Nothing is to be answered from now on. A piece that was to be read gives its part back.
fn drop_due(moves: &mut MoveCore, due: Due)
    requires { HasReadPart due moves.old }
    ensures follows { (s : Shared) (events : Events) → FollowsBut due s events moves.old → Follows s events moves.new }
    ensures bytes { KeepsBytes no_part moves.old.parts.slots moves.new.parts.slots }
    ensures steady { IsSteady moves.old moves.new }
{
    if let Due::Next(Move::Read { task, number }) = due {
        moves.take_back(task, number);
    }
}

/// A part is lent to a piece that is to be read.
fn lend_for(moves: &mut MoveCore, next: Move)
    requires { (task number : ℕ) → next ≡ Move.Read task number → IsReadNext task number moves.old }
    ensures follows { (s : Shared) (events : Events) → IsRunOf s events → Follows s events moves.old
        → next_move s events ≡ next → FollowsBut (Due.Next next) s events moves.new }
    ensures steady { IsSteady moves.old moves.new }
    ensures bytes { KeepsBytes (read_at moves.new.parts.slots (Due.Next next)) moves.old.parts.slots
        moves.new.parts.slots }
    ensures empty { IfSome (read_in moves.new.parts.slots (Due.Next next)) (λ part. part.bytes.bytes ≡ []) }
    ensures room { IfSome (read_in moves.new.parts.slots (Due.Next next))
        (λ part. moves.old.parts.pool.room ≤ part.bytes.room) }
{
    if let Move::Read { task, number } = next {
        moves.lend_next(task, number);
    }
}

impl Manager {
    /// A move that was named and not answered is dropped: the next one is by what has happened.
    pub(crate) fn drop_move(&mut self)
        requires { CanGoOn self.old }
        ensures running { KeepsRun self.old self.new }
        ensures free { self.new.due ≡ Due.Free }
        ensures steps { self.new.steps ≡ self.old.steps }
        ensures bytes { KeepsBytes no_part self.old.moves.parts.slots self.new.moves.parts.slots }
        ensures steady { IsSteady self.old.moves self.new.moves }
    {
        drop_due(&mut self.moves, self.due);
        self.due = Due::Free;
    }

    /// The next move, by the rule of a run. A part is lent to a piece that is to be read.
    pub fn next(&mut self) -> Move
        requires { CanGoOn self.old }
        ensures rule { (start : Start) (s : Shared) (events : Events) → IsRunning start s events self.old
            → result ≡ next_move s events }
        ensures running { KeepsRun self.old self.new }
        ensures cells { KeepsCells self.old self.new }
        ensures due { self.new.due ≡ Due.Next result }
        ensures bytes { KeepsBytes (read_at self.new.moves.parts.slots self.new.due) self.old.moves.parts.slots
            self.new.moves.parts.slots }
        ensures empty { IfSome (read_part self.new) (λ part. part.bytes.bytes ≡ []) }
        ensures room { (start : Start) (s : Shared) (events : Events) (task number : ℕ) (w : Work)
            → IsRunning start s events self.old → result ≡ Move.Read task number → slice_get s.works task ≡ Some w
            → IfSome (read_part self.new) (λ part. (range_at w number).1 ≤ part.bytes.room) }
    {
        self.drop_move();
        let next = self.moves.next();
        lend_for(&mut self.moves, next);
        self.due = Due::Next(next);
        next
    }
}
