//! What happens to the state of a task.

ghost use Rattle.std.specs.Prelude.{◌≡◌, ◌∷◌, [], Ok, Some, IfOk};
ghost use Rattle.move_laws.specs.Making.{first_cancel};
ghost use Rattle.task_acts.specs.declared.work.Work.{Work};
ghost use Rattle.task_acts.specs.Histories.{Gave, History, Returned};
ghost use Rattle.task_core.specs.Machine.{Stands, ready_by};

use s3_model::{OutOfMemory, Reason};
use std::alloc::Global;
use task_acts::{Act, FileCame};
use task_core::TaskState;

/// The state of a task that was made, in a box.
pub fn boxed(
    alloc: Global,
    state: Result<TaskState, OutOfMemory>,
) -> Result<Box<TaskState>, OutOfMemory>
    ensures { IfOk result (λ kept. state ≡ Ok kept.value) }
{
    Ok(Box::new(alloc, state?)?)
}

/// A new task hears of the first cancel, if there was one.
pub fn tell(state: &mut TaskState, reason: Option<Reason>)
    ensures stands { (w : Work) → Stands w [] state.old → Stands w (first_cancel reason) state.new }
    ensures tags { state.new.tags ≡ state.old.tags }
{
    if let Some(reason) = reason {
        state.cancel(reason);
    }
}

/// A call on files was made, and came back.
pub fn call(state: &mut TaskState, act: Act, came: FileCame)
    requires { ready_by state.old ≡ Some act }
    ensures stands { (w : Work) (history : History) → Stands w history state.old
        → Stands w (Returned act came ∷ Gave act ∷ history) state.new }
    ensures tags { state.new.tags ≡ state.old.tags }
{
    state.gave(act);
    state.file_came(act, came);
}
