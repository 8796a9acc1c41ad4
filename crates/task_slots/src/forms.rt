//! The moves that acts are.

ghost use Rattle.std.specs.Prelude.{◌≡◌};
ghost use Rattle.move_laws.specs.Kept.{call_move, giving_move};

use manager_moves::Move;
use task_acts::Act;

/// The call on files that an act of a task is, if it is one.
pub fn call_move(task: u32, act: Act) -> Option<Move>
    ensures { result ≡ call_move task act }
{
    Some(match act {
        Act::Send { .. } => return None,
        Act::Read { number } => Move::Read { task, number },
        Act::Assemble => Move::Assemble { task, number: 0 },
        Act::Place { number } => Move::Place { task, number },
        Act::Rename => Move::Rename { task, number: 0 },
        Act::DropTemp => Move::DropTemp { task, number: 0 },
        Act::Remove => Move::Remove { task, number: 0 },
        Act::Stamp => Move::Stamp { task, number: 0 },
    })
}

/// The giving that an act of a task is, if it is one, to that lane.
pub fn giving_move(lane: u32, task: u32, act: Act) -> Option<Move>
    ensures { result ≡ giving_move lane task act }
{
    match act {
        Act::Send { op, number } => Some(Move::Give {
            task,
            op,
            number,
            lane,
        }),
        _ => None,
    }
}
