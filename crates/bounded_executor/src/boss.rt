//! What gives the jobs and takes their outcomes.

ghost use Rattle.std.specs.Prelude.{◌≡◌, ℕ, List, length, replicate};
ghost use Rattle.bounded_executor.specs.Exchange.{Exchange, unused};
ghost use Rattle.bounded_executor.specs.Desk.{all_out, SameDesk};

use crate::desk::Desk;
use crate::worker::Worker;
use std::sync::Wait;

/// What gives the jobs and takes their outcomes back, on the thread of the caller.
pub trait Boss<W: Worker> {
    /// What is asked of the boss, the number of lanes and the depth before it begins.
    ghost may_direct: { Self → ℕ → ℕ → Type 0 };

    /// The boss before, what it exchanged with each lane, and the boss after.
    ghost directs: { Self → List (Exchange W.Job W.Done) → Self → Type 0 };

    /// Gives jobs to the lanes of an unused desk, and takes all outcomes back.
    fn direct<R: Wait>(&mut self, rt: &R, desk: &mut Desk<W>)
        requires ready { may_direct self.old (length desk.old.lanes) desk.old.depth }
        requires unused { desk.old.lanes ≡ replicate (length desk.old.workers) unused }
        ensures same_desk { SameDesk desk.old desk.new }
        ensures none_out { all_out desk.new ≡ 0 }
        ensures directed { directs self.old desk.new.lanes self.new };
}
