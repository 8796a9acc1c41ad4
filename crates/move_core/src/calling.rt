//! Calls on files.

ghost use Rattle.std.specs.Prelude.{◌≡◌, ◌≤◌, ◌∷◌, [], true, None, IfSome};
ghost use Rattle.held_parts.specs.Held.{IsSamePool, held_at, here_at};
ghost use Rattle.manager_moves.specs.Runs.{Called};
ghost use Rattle.move_laws.specs.Admits.{Admits, GoesOn};
ghost use Rattle.move_laws.specs.Bytes.{KeepsBytes, no_part};
ghost use Rattle.move_laws.specs.Calls.{HasPlaced, IsLentFor, IsLent, IsPlaced};
ghost use Rattle.move_laws.specs.Kept.{SeenMoves, has_free, with_parts};
ghost use Rattle.move_laws.specs.Steady.{IsSteady};

use crate::move_core::MoveCore;
use crate::settling::fails;
use task_acts::{Act, FileCame};
use task_slots::call;

impl MoveCore {
    /// The part of a piece whose bytes were written is free.
    fn free_placed(&mut self, task: u32, act: Act)
        requires { HasPlaced task act self.old.parts.slots }
        ensures rest { self.new ≡ with_parts self.new.parts self.old }
        ensures held { IsPlaced task act self.old.parts.slots self.new.parts.slots }
        ensures pool { IsSamePool self.old.parts.pool self.new.parts.pool }
    {
        if let Act::Place { number } = act {
            let part = self.parts.take(task, number);
            self.parts.give_back(task, number, part);
        }
    }

    /// Lends an empty part to the piece that is read next, as the next move was.
    pub(crate) fn lend(&mut self, task: u32, number: u32)
        requires none { held_at self.old.parts.slots task number ≡ None }
        requires free { has_free self.old ≡ true }
        ensures lent { IsLent task number self.old self.new }
        ensures empty { IfSome (here_at self.new.parts.slots task number) (λ part. part.bytes.bytes ≡ []) }
        ensures room { IfSome (here_at self.new.parts.slots task number)
            (λ part. self.old.parts.pool.room ≤ part.bytes.room) }
    {
        let Some(part) = self.parts.lend(task, number) else {
            unreachable!()
        };
        self.parts.put(task, number, part);
    }

    /// That call on files was made for a task, as the next move was, and came back. A piece that was read keeps the
    /// part that it was lent, and one that was placed gives its part back; so does a task that fails, with all its
    /// parts but those of jobs that are out.
    pub fn called(&mut self, task: u32, act: Act, came: FileCame)
        requires { (m : SeenMoves) × IsLentFor task act m self.old × Admits (Called task act came) m }
        ensures goes_on { (m : SeenMoves) → IsLentFor task act m self.old → GoesOn (Called task act came) m self.new }
        ensures bytes { KeepsBytes no_part self.old.parts.slots self.new.parts.slots }
        ensures steady { IsSteady self.old self.new }
    {
        let mut state = self.take_state(task);
        let stopped = self.is_stopped(&state);
        call(&mut state, act, came);
        self.free_placed(task, act);
        let stops = fails(stopped, &state);
        self.free_where(stops, &mut state, task);
        self.put_state(task, state);
    }
}
