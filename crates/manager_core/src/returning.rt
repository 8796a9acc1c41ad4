//! Jobs that come back.

ghost use Rattle.std.specs.Prelude.{◌≡◌, ◌≤◌, ◌∷◌, IfSome, length};
ghost use Rattle.manager_moves.specs.Laws.{MayFollow};
ghost use Rattle.manager_moves.specs.Runs.{Back, Events, Shared};
ghost use Rattle.move_laws.specs.Bytes.{KeepsBytes, part_by};
ghost use Rattle.manager_core.specs.declared.due.Due.TheVariants as due;
ghost use Rattle.manager_core.specs.Answers.{MayComeBack};
ghost use Rattle.manager_core.specs.Cells.{KeepsCells};
ghost use Rattle.manager_core.specs.Running.{IsRunning, Start};

use crate::manager::Manager;
use jobs::Carried;
use s3_model::{Event, Tries};

/// The marks of a job once more, for the journal.
fn copy_of(tries: &Tries) -> Tries
    requires { length tries.now ≤ 10 }
    ensures { result ≡ tries.now }
{
    let mut copy = Tries::none();
    for mark in tries.as_slice() {
        copy.add(*mark);
    }
    copy
}

impl Manager {
    /// The oldest job of a lane came back, as it was given.
    pub fn came(&mut self, lane: u32, carried: Carried)
        requires may { MayComeBack lane carried self.old }
        requires room { IfSome carried.job.part (λ part. self.old.moves.parts.pool.room ≤ part.bytes.room) }
        requires few { length carried.tries ≤ 10 }
        ensures running { (start : Start) (s : Shared) (events : Events) → IsRunning start s events self.old
            → MayFollow s events (Back lane carried) → IsRunning start s (Back lane carried ∷ events) self.new }
        ensures cells { KeepsCells self.old self.new }
        ensures bytes { KeepsBytes (part_by carried) self.old.moves.parts.slots self.new.moves.parts.slots }
        ensures free { self.new.due ≡ due.Free }
    {
        self.drop_move();
        let job = carried.id();
        let tries = copy_of(&carried.tries);
        self.journal.push(Event::Came { job, lane, tries });
        self.moves.back(lane, carried);
        let Some(task) = job.task else { unreachable!() };
        self.settle(task);
    }
}
