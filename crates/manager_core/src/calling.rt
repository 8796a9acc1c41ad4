//! Calls on files.

ghost use Rattle.std.specs.Option.{option_map};
ghost use Rattle.std.specs.Prelude.{◌≡◌, ◌∷◌, ℕ, List, Some};
ghost use Rattle.held_parts.specs.Held.{with_more};
ghost use Rattle.manager_moves.specs.Runs.{Called, Events, Shared};
ghost use Rattle.move_laws.specs.Bytes.{KeepsBytes, no_part};
ghost use Rattle.manager_core.specs.Answers.{FitsInPart, IsCallDue, IsDue, placed_part, read_at, read_part};
ghost use Rattle.manager_core.specs.Cells.{KeepsCells};
ghost use Rattle.manager_core.specs.Due.{call_due};
ghost use Rattle.manager_core.specs.Running.{IsRunning, KeepsRun, Start};
ghost use Rattle.manager_core.specs.declared.due.Call.{Call as OneCall};

use crate::due::{Call, Due, due_call, due_place, due_read};
use crate::manager::Manager;
use manager_moves::Move;
use s3_model::Part;
use task_acts::FileCame;

impl Manager {
    /// Adds bytes to the part of the piece that is read, as the next move was.
    pub fn fill(&mut self, piece: &[u8])
        requires due { (task number : ℕ) × IsDue (Move.Read task number) self.old }
        requires fits { FitsInPart piece.now (read_part self.old) }
        ensures running { KeepsRun self.old self.new }
        ensures cells { KeepsCells self.old self.new }
        ensures bytes { KeepsBytes (read_at self.new.moves.parts.slots self.new.due) self.old.moves.parts.slots
            self.new.moves.parts.slots }
        ensures grown { read_part self.new ≡ option_map (with_more piece.now) (read_part self.old) }
        ensures due { self.new.due ≡ self.old.due }
    {
        let (task, number) = due_read(self.due);
        self.moves.fill(task, number, piece);
    }

    /// The part of the piece whose bytes are written, as the next move was.
    pub fn part(&self) -> &Part
        requires { (task number : ℕ) × IsDue (Move.Place task number) self.now }
        ensures { placed_part self.now ≡ Some result.now }
    {
        let (task, number) = due_place(self.due);
        let Some(part) = self.moves.part(task, number) else {
            unreachable!()
        };
        part
    }

    /// The call on files was made that the next move was, and came back so.
    pub fn file_came(&mut self, came: FileCame)
        requires { IsCallDue came self.old }
        ensures running { (start : Start) (s : Shared) (events : Events) (call : OneCall)
            → IsRunning start s events self.old → call_due self.old.due ≡ Some call
            → IsRunning start s (Called call.task call.act came ∷ events) self.new }
        ensures cells { KeepsCells self.old self.new }
        ensures bytes { KeepsBytes no_part self.old.moves.parts.slots self.new.moves.parts.slots }
        ensures free { self.new.due ≡ Due.Free }
    {
        let Call { task, act } = due_call(self.due);
        self.due = Due::Free;
        self.moves.called(task, act, came);
        self.settle(task);
    }
}
