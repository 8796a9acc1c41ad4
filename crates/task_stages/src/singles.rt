//! The acts that a task has once.

ghost use Rattle.std.specs.Prelude.{◌≡◌};
ghost use Rattle.task_stages.specs.Stages.{is_idle_single, no_single};

use piece_stages::is_out;
use task_acts::Stage;

/// How far the acts are that a task has once.
#[derive(Clone, Copy)]
pub struct Singles {
    pub create: Stage,
    pub complete: Stage,
    pub abort: Stage,
    pub delete: Stage,
    pub assemble: Stage,
    pub rename: Stage,
    pub drop_temp: Stage,
    pub remove: Stage,
    pub stamp: Stage,
}

impl Singles {
    /// Nothing was given.
    pub(crate) fn none() -> Singles
        ensures { result ≡ no_single }
    {
        Singles {
            create: Stage::Waiting,
            complete: Stage::Waiting,
            abort: Stage::Waiting,
            delete: Stage::Waiting,
            assemble: Stage::Waiting,
            rename: Stage::Waiting,
            drop_temp: Stage::Waiting,
            remove: Stage::Waiting,
            stamp: Stage::Waiting,
        }
    }

    /// Whether none of them is out.
    pub fn is_idle(&self) -> bool
        ensures { result ≡ is_idle_single self.now }
    {
        !(is_out(self.assemble)
            || is_out(self.rename)
            || is_out(self.drop_temp)
            || is_out(self.remove)
            || is_out(self.stamp)
            || is_out(self.create)
            || is_out(self.complete)
            || is_out(self.abort)
            || is_out(self.delete))
    }
}
