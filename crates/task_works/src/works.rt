//! The work of a task.

ghost use Rattle.std.specs.Prelude.{◌≡◌, ◌≤◌, ◌<◌, ◌+◌, ◌^◌, false};
ghost use Rattle.s3_model.specs.Parts.{HasPieces, IsInParts, IsTransfer};
ghost use Rattle.s3_model.specs.Validity.{IsValidConfig, IsValidLimits};
ghost use Rattle.task_acts.specs.Work.{IsWorkOf};
ghost use Rattle.task_core.specs.Machine.{IsNumbered};
ghost use Rattle.task_stages.specs.Stages.{removes};
ghost use Rattle.task_works.specs.Works.{IsWithinObject};

use chunk_plan::{adjust, part_count};
use s3_model::{Config, Kind, Limits, Task};
use task_acts::Work;

/// The length of the pieces of a transfer, in bytes, and how many there are.
#[derive(Clone, Copy)]
struct Pieces {
    piece: u64,
    count: u32,
}

fn in_parts(size: u64, config: &Config, limits: &Limits) -> Pieces
    requires config { IsValidConfig config.now }
    requires limits { IsValidLimits limits.now }
    requires within { size ≤ limits.now.max_object }
    ensures parts { IsInParts config.now limits.now size result.piece result.count }
    ensures some { 1 ≤ result.piece }
    ensures few { result.count ≤ 10000 }
{
    let piece = adjust(config.chunk, size, limits);
    Pieces {
        piece,
        count: part_count(size, piece),
    }
}

fn transfer_pieces(size: u64, config: &Config, limits: &Limits) -> Pieces
    requires config { IsValidConfig config.now }
    requires limits { IsValidLimits limits.now }
    requires within { size ≤ limits.now.max_object }
    ensures pieces { IsTransfer config.now limits.now size result.piece result.count }
    ensures some { config.now.threshold ≤ size → 1 ≤ result.piece }
    ensures few { result.count ≤ 10000 }
{
    if size < config.threshold {
        Pieces {
            piece: size,
            count: 1,
        }
    } else {
        in_parts(size, config, limits)
    }
}

fn pieces_of(task: &Task, config: &Config, limits: &Limits) -> Pieces
    requires config { IsValidConfig config.now }
    requires limits { IsValidLimits limits.now }
    requires within { IsWithinObject task.now limits.now }
    ensures pieces { HasPieces config.now limits.now task.now.kind task.now.size result.piece result.count }
    ensures some { removes task.now.kind ≡ false → config.now.threshold ≤ task.now.size → 1 ≤ result.piece }
    ensures few { result.count ≤ 10000 }
{
    match task.kind {
        Kind::Upload | Kind::Download | Kind::Copy => transfer_pieces(task.size, config, limits),
        Kind::RemoveObject | Kind::RemoveFile => Pieces { piece: 0, count: 1 },
    }
}

/// What a task is to do: the one work that its settings and the limits of the service give it. The size of what is
/// moved is at most `max_object` bytes.
pub fn work_of(task: &Task, config: &Config, limits: &Limits) -> Work
    requires config { IsValidConfig config.now }
    requires limits { IsValidLimits limits.now }
    requires within { IsWithinObject task.now limits.now }
    requires replaces { task.now.fresh ≡ false }
    ensures work { IsWorkOf task.now config.now limits.now result }
    ensures few { result.count + 1 < 2 ^ 32 }
    ensures attempts { result.attempts ≤ 10 }
    ensures numbers { IsNumbered result }
{
    let Pieces { piece, count } = pieces_of(task, config, limits);
    Work {
        of_kind: task.kind,
        moves: task.moves,
        small: task.size < config.threshold,
        size: task.size,
        piece,
        count,
        attempts: config.attempts,
    }
}
