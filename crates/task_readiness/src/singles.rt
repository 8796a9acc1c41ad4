//! Which act is ready of those that a task has once.

ghost use Rattle.std.specs.Prelude.{◌≡◌, ◌&&◌, ◌||◌, not, false, if◌then◌else◌, Bool};
ghost use Rattle.std.specs.List.{find, list_all};
ghost use Rattle.piece_stages.specs.Pieces.{is_placed, is_sent};
ghost use Rattle.s3_model.specs.declared.requests.Op.TheVariants as op;
ghost use Rattle.task_acts.specs.declared.acts.Act.TheVariants as act;
ghost use Rattle.task_acts.specs.Rule.{is_decided, is_left_over, is_ready, single_sends};
ghost use Rattle.task_acts.specs.Stages.{has_done, has_ended, may_be_given};
ghost use Rattle.task_stages.specs.Stages.{stage_by};
ghost use Rattle.task_readiness.specs.Readiness.{
  has_parts,
  is_download,
  may_delete_by,
  may_remove_by,
  single_calls,
};

use crate::decided::{is_decided, is_idle};
use piece_stages::{has_done, has_ended, may_be_given};
use s3_model::{Kind, Op};
use task_acts::{Act, Stage};
use task_stages::TaskStages;

/// Whether an act comes next without a failure and a cancel.
fn may_begin(stage: Stage, stopped: bool, is_due: bool) -> bool
    ensures { result ≡ (may_be_given stage && (if stopped then false else is_due)) }
{
    may_be_given(stage) && !stopped && is_due
}

/// Whether an act comes next after a failure or a cancel.
fn may_tidy(stage: Stage, stopped: bool, is_left_over: bool) -> bool
    ensures { result ≡ (may_be_given stage && (if stopped then is_left_over else false)) }
{
    may_be_given(stage) && stopped && is_left_over
}

fn is_download(kind: Kind) -> bool
    ensures { result ≡ is_download kind }
{
    matches!(kind, Kind::Download)
}

/// Whether what is sent in parts is created and completed.
fn has_parts(kind: Kind) -> bool
    ensures { result ≡ has_parts kind }
{
    matches!(kind, Kind::Upload | Kind::Copy)
}

fn may_remove(kind: Kind, moves: bool, decided: bool) -> bool
    ensures { result ≡ may_remove_by kind moves decided }
{
    match kind {
        Kind::Upload => moves && decided,
        Kind::RemoveFile => true,
        Kind::Download | Kind::Copy | Kind::RemoveObject => false,
    }
}

fn may_delete(kind: Kind, moves: bool, decided: bool, stamped: bool) -> bool
    ensures { result ≡ may_delete_by kind moves decided stamped }
{
    match kind {
        Kind::Download => moves && stamped,
        Kind::Copy => moves && decided,
        Kind::RemoveObject => true,
        Kind::Upload | Kind::RemoveFile => false,
    }
}

/// Whether each range of a download was written.
fn is_whole_file(stages: &TaskStages) -> bool
    ensures { result ≡ (is_download stages.now.work.of_kind && has_done stages.now.singles.assemble
        && list_all is_placed stages.now.pieces) }
{
    is_download(stages.work().of_kind)
        && has_done(stages.singles().assemble)
        && stages.is_each_placed()
}

/// Whether each part of an upload or a copy in parts was stored.
fn is_whole_upload(stages: &TaskStages) -> bool
    ensures { result ≡ (has_parts stages.now.work.of_kind && not stages.now.work.small
        && has_done stages.now.singles.create && list_all is_sent stages.now.pieces) }
{
    let work = stages.work();
    has_parts(work.of_kind)
        && !work.small
        && has_done(stages.singles().create)
        && stages.is_each_sent()
}

/// Whether a temporary file was made and not renamed.
fn has_file(stages: &TaskStages) -> bool
    ensures { result ≡ (has_done stages.now.singles.assemble && not (has_done stages.now.singles.rename)) }
{
    let singles = stages.singles();
    has_done(singles.assemble) && !has_done(singles.rename)
}

/// Whether an upload was created and not completed.
fn has_upload(stages: &TaskStages) -> bool
    ensures { result ≡ (has_done stages.now.singles.create && not (has_done stages.now.singles.complete)) }
{
    let singles = stages.singles();
    has_done(singles.create) && !has_done(singles.complete)
}

/// Whether a temporary file is left that was not renamed, and nothing is out.
fn is_file_left(stages: &TaskStages) -> bool
    ensures { (stopped : Bool) → result ≡ is_left_over stages.now.work (stage_by stages.now) stopped act.DropTemp }
{
    has_file(stages) && is_idle(stages)
}

/// Whether an upload is left that was created and not completed, and nothing is out.
fn is_upload_left(stages: &TaskStages) -> bool
    ensures { (stopped : Bool) → result ≡ is_left_over stages.now.work (stage_by stages.now) stopped (act.Send op.Abort 0) }
{
    has_upload(stages) && is_idle(stages)
}

#[tactic(auto, using(crate::proofs::Whole::assemble))]
fn can_assemble(stages: &TaskStages, stopped: bool) -> bool
    ensures { result ≡ is_ready stages.now.work (stage_by stages.now) stopped act.Assemble }
{
    let work = stages.work();
    may_begin(
        stages.singles().assemble,
        stopped,
        is_download(work.of_kind),
    )
}

fn can_rename(stages: &TaskStages, stopped: bool) -> bool
    ensures { result ≡ is_ready stages.now.work (stage_by stages.now) stopped act.Rename }
{
    let _work = stages.work();
    may_begin(stages.singles().rename, stopped, is_whole_file(stages))
}

fn can_drop_temp(stages: &TaskStages, stopped: bool) -> bool
    ensures { result ≡ is_ready stages.now.work (stage_by stages.now) stopped act.DropTemp }
{
    let _work = stages.work();
    may_tidy(stages.singles().drop_temp, stopped, is_file_left(stages))
}

fn can_remove(stages: &TaskStages, stopped: bool) -> bool
    ensures { result ≡ is_ready stages.now.work (stage_by stages.now) stopped act.Remove }
{
    let work = stages.work();
    let is_due = may_remove(work.of_kind, work.moves, is_decided(stages));
    may_begin(stages.singles().remove, stopped, is_due)
}

/// The time of a file is set once it was renamed, also after a cancel.
fn can_stamp(stages: &TaskStages, stopped: bool) -> bool
    ensures { result ≡ is_ready stages.now.work (stage_by stages.now) stopped act.Stamp }
{
    let singles = stages.singles();
    may_be_given(singles.stamp) && has_done(singles.rename)
}

#[tactic(auto, using(crate::proofs::Whole::create))]
fn can_create(stages: &TaskStages, stopped: bool) -> bool
    ensures { result ≡ is_ready stages.now.work (stage_by stages.now) stopped (act.Send op.Create 0) }
{
    let work = stages.work();
    let is_due = has_parts(work.of_kind) && !work.small;
    may_begin(stages.singles().create, stopped, is_due)
}

fn can_complete(stages: &TaskStages, stopped: bool) -> bool
    ensures { result ≡ is_ready stages.now.work (stage_by stages.now) stopped (act.Send op.Complete 0) }
{
    let _work = stages.work();
    may_begin(stages.singles().complete, stopped, is_whole_upload(stages))
}

fn can_abort(stages: &TaskStages, stopped: bool) -> bool
    ensures { result ≡ is_ready stages.now.work (stage_by stages.now) stopped (act.Send op.Abort 0) }
{
    let _work = stages.work();
    may_tidy(stages.singles().abort, stopped, is_upload_left(stages))
}

fn can_delete(stages: &TaskStages, stopped: bool) -> bool
    ensures { result ≡ is_ready stages.now.work (stage_by stages.now) stopped (act.Send op.Delete 0) }
{
    let work = stages.work();
    let singles = stages.singles();
    let is_due = may_delete(
        work.of_kind,
        work.moves,
        is_decided(stages),
        has_ended(singles.stamp),
    );
    may_begin(singles.delete, stopped, is_due)
}

/// The first call on files that is ready, of those that are made once.
pub(crate) fn first_call(stages: &TaskStages, stopped: bool) -> Option<Act>
    ensures { result ≡ find (is_ready stages.now.work (stage_by stages.now) stopped) single_calls }
{
    if can_assemble(stages, stopped) {
        Some(Act::Assemble)
    } else if can_rename(stages, stopped) {
        Some(Act::Rename)
    } else if can_drop_temp(stages, stopped) {
        Some(Act::DropTemp)
    } else if can_remove(stages, stopped) {
        Some(Act::Remove)
    } else if can_stamp(stages, stopped) {
        Some(Act::Stamp)
    } else {
        None
    }
}

fn single(op: Op) -> Act
    ensures { result ≡ act.Send op 0 }
{
    Act::Send { op, number: 0 }
}

/// The first job that is ready, of those that are no piece's.
pub(crate) fn first_job(stages: &TaskStages, stopped: bool) -> Option<Act>
    ensures { result ≡ find (is_ready stages.now.work (stage_by stages.now) stopped) single_sends }
{
    if can_create(stages, stopped) {
        Some(single(Op::Create))
    } else if can_complete(stages, stopped) {
        Some(single(Op::Complete))
    } else if can_abort(stages, stopped) {
        Some(single(Op::Abort))
    } else if can_delete(stages, stopped) {
        Some(single(Op::Delete))
    } else {
        None
    }
}
