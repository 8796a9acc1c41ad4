//! What is to be answered before a run goes on.

ghost use Rattle.std.specs.Prelude.{◌≡◌, ℕ, IsSome, Some};
ghost use Rattle.manager_core.specs.Due.{call_due, call_in, lane_due};

use manager_moves::Move;
use s3_model::Op;
use task_acts::Act;

/// What is to be answered before a run goes on.
#[derive(Clone, Copy)]
pub enum Due {
    /// Nothing.
    Free,
    /// The move that was named last.
    Next(Move),
    /// A job was formed, and is to go to that lane.
    Job {
        task: u32,
        op: Op,
        number: u32,
        lane: u32,
    },
}

/// A call on files that is to be made.
#[derive(Clone, Copy)]
pub(crate) struct Call {
    pub(crate) task: u32,
    pub(crate) act: Act,
}

/// The call on files that a move is, if it is one.
pub(crate) fn call_in(next: Move) -> Option<Call>
    ensures { result ≡ call_in next }
{
    Some(match next {
        Move::Read { task, number } => Call {
            task,
            act: Act::Read { number },
        },
        Move::Place { task, number } => Call {
            task,
            act: Act::Place { number },
        },
        Move::Assemble { task, .. } => Call {
            task,
            act: Act::Assemble,
        },
        Move::Rename { task, .. } => Call {
            task,
            act: Act::Rename,
        },
        Move::DropTemp { task, .. } => Call {
            task,
            act: Act::DropTemp,
        },
        Move::Remove { task, .. } => Call {
            task,
            act: Act::Remove,
        },
        Move::Stamp { task, .. } => Call {
            task,
            act: Act::Stamp,
        },
        Move::Make(_) | Move::Give { .. } | Move::Line(_) | Move::Wait | Move::End => return None,
    })
}

/// The call on files that is due.
pub(crate) fn due_call(due: Due) -> Call
    requires { IsSome (call_due due) }
    ensures { call_due due ≡ Some result }
{
    let Due::Next(next) = due else { unreachable!() };
    let Some(call) = call_in(next) else {
        unreachable!()
    };
    call
}

/// The lane to which the job goes that is due.
pub(crate) fn due_lane(due: Due) -> u32
    requires { IsSome (lane_due due) }
    ensures { lane_due due ≡ Some result }
{
    let Due::Next(Move::Give { lane, .. }) = due else {
        unreachable!()
    };
    lane
}

/// The piece that is to be read.
pub(crate) fn due_read(due: Due) -> (u32, u32)
    requires { (task number : ℕ) × (due ≡ Due.Next (Move.Read task number)) }
    ensures { due ≡ Due.Next (Move.Read result.0 result.1) }
{
    let Due::Next(Move::Read { task, number }) = due else {
        unreachable!()
    };
    (task, number)
}

/// The piece that is to be placed.
pub(crate) fn due_place(due: Due) -> (u32, u32)
    requires { (task number : ℕ) × (due ≡ Due.Next (Move.Place task number)) }
    ensures { due ≡ Due.Next (Move.Place result.0 result.1) }
{
    let Due::Next(Move::Place { task, number }) = due else {
        unreachable!()
    };
    (task, number)
}
