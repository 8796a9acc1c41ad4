//! Whether a task is decided, and whether something of it is out.

ghost use Rattle.std.specs.Prelude.{◌≡◌, ◌&&◌, ◌||◌, not, Bool};
ghost use Rattle.job_terms.specs.Ops.{deciding};
ghost use Rattle.task_acts.specs.Ends.{removal};
ghost use Rattle.task_acts.specs.Rule.{is_decided, is_idle};
ghost use Rattle.task_acts.specs.Stages.{has_done};
ghost use Rattle.task_stages.specs.Stages.{stage_by};

use piece_stages::has_done;
use s3_model::{Kind, Op};
use task_acts::Act;
use task_stages::TaskStages;

/// The request that decides a task whose destination is an object.
fn deciding_op(kind: Kind, small: bool) -> Op
    ensures { result ≡ deciding kind small }
{
    match (kind, small) {
        (Kind::Upload, true) => Op::Put,
        (Kind::Copy, true) => Op::Copy,
        (Kind::Upload | Kind::Copy, false) => Op::Complete,
        (Kind::Download | Kind::RemoveObject | Kind::RemoveFile, _) => Op::Delete,
    }
}

/// Whether an act came back and did what it was to do.
fn is_done(stages: &TaskStages, act: Act) -> bool
    ensures { result ≡ has_done (stage_by stages.now act) }
{
    has_done(stages.stage(act))
}

/// Whether what the task is for has happened: its deciding request came with success, or the file was renamed or
/// removed.
pub fn is_decided(stages: &TaskStages) -> bool
    ensures { (stopped : Bool) → result ≡ is_decided stages.now.work (stage_by stages.now) stopped }
{
    let work = stages.work();
    match work.of_kind {
        Kind::Download => is_done(stages, Act::Rename),
        Kind::RemoveFile => is_done(stages, Act::Remove),
        Kind::Upload | Kind::Copy | Kind::RemoveObject => is_done(
            stages,
            Act::Send {
                op: deciding_op(work.of_kind, work.small),
                number: 0,
            },
        ),
    }
}

/// How the source of a move is removed.
fn removal(kind: Kind) -> Act
    ensures { result ≡ removal kind }
{
    match kind {
        Kind::Upload | Kind::RemoveFile => Act::Remove,
        _ => Act::Send {
            op: Op::Delete,
            number: 0,
        },
    }
}

/// Whether the source is gone where the task moves it.
fn is_source_gone(stages: &TaskStages) -> bool
    ensures { result ≡ (not stages.now.work.moves
        || has_done (stage_by stages.now (removal stages.now.work.of_kind))) }
{
    let work = stages.work();
    !work.moves || is_done(stages, removal(work.of_kind))
}

/// Whether every step of the task has succeeded: it is decided, and where it moves, its source is gone.
pub fn is_whole(stages: &TaskStages) -> bool
    ensures { (stopped : Bool) → result ≡ (is_decided stages.now.work (stage_by stages.now) stopped
        && (not stages.now.work.moves || has_done (stage_by stages.now (removal stages.now.work.of_kind)))) }
{
    is_decided(stages) && is_source_gone(stages)
}

/// Whether no act of the task is out.
pub fn is_idle(stages: &TaskStages) -> bool
    ensures { (stopped : Bool) → result ≡ is_idle stages.now.work (stage_by stages.now) stopped }
{
    let _work = stages.work();
    stages.singles().is_idle() && stages.are_pieces_idle()
}
