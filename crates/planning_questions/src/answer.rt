//! What comes back of a request of the planning.

ghost use Rattle.std.specs.Prelude.{◌≡◌};
ghost use Rattle.planning_questions.specs.Answers.{said_by};

use crate::halt::Halt;
use jobs::Ending;
use s3_model::{Cause, Op, Reply, Why};

/// What the ending of a job says, which may not be cancelled.
pub(crate) fn said_by(op: Op, ending: Ending) -> Result<Reply, Halt>
    ensures { result ≡ said_by op ending }
{
    match ending {
        Ending::Gained(said) => Ok(said),
        Ending::Refused {
            status: _,
            code,
            message,
        } => Err(Halt::Answer(Cause::Service { op, code, message })),
        Ending::Uncertain(Why::Memory) => Err(Halt::Memory),
        Ending::Uncertain(why) => Err(Halt::Answer(Cause::Lost { op, why })),
        Ending::Cancelled(_) => Err(Halt::Stranger),
        Ending::Memory => Err(Halt::Memory),
    }
}
