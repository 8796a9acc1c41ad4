//! Which act of a piece is ready.

ghost use Rattle.std.specs.Prelude.{◌≡◌, ◌+◌, ◌^◌, ◌<◌, ◌&&◌, ◌||◌, not, ℕ, None, IfSome, if◌then◌else◌};
ghost use Rattle.std.specs.List.{position};
ghost use Rattle.piece_stages.specs.Pieces.{can_place, can_read, can_send};
ghost use Rattle.task_acts.specs.declared.acts.Act.TheVariants as act;
ghost use Rattle.task_acts.specs.Stages.{has_done};
ghost use Rattle.task_acts.specs.Work.{first_number, piece_op};
ghost use Rattle.task_stages.specs.Stages.{reads_first};
ghost use Rattle.task_readiness.specs.Readiness.{is_download, is_upload, may_send, may_send_by, numbered};

use piece_stages::has_done;
use s3_model::Kind;
use task_acts::Act;
use task_stages::TaskStages;

/// Whether what comes before the requests of all pieces has happened.
fn may_send(stages: &TaskStages) -> bool
    ensures { result ≡ may_send stages.now }
{
    let work = stages.work();
    match work.of_kind {
        Kind::Upload => true,
        Kind::Download => has_done(stages.singles().assemble),
        Kind::Copy => work.small || has_done(stages.singles().create),
        Kind::RemoveObject | Kind::RemoveFile => false,
    }
}

/// The first piece that came and is to be written.
pub(crate) fn first_place(stages: &TaskStages, stopped: bool) -> Option<Act>
    ensures { result ≡ (if not stopped && is_download stages.now.work.of_kind
        then numbered act.Place (first_number stages.now.work) (position can_place stages.now.pieces) else None) }
{
    if stopped || !matches!(stages.work().of_kind, Kind::Download) {
        return None;
    }
    let index = stages.first_place()?;
    Some(Act::Place {
        number: stages.first_number() + index,
    })
}

/// The first piece whose job is to be given.
pub(crate) fn first_send(stages: &TaskStages, stopped: bool) -> Option<Act>
    ensures { result ≡ (if not stopped && may_send stages.now
        then numbered (act.Send (piece_op stages.now.work.of_kind stages.now.work.small)) (first_number stages.now.work)
        (position (can_send (reads_first stages.now.work.of_kind)) stages.now.pieces) else None) }
{
    if stopped || !may_send(stages) {
        return None;
    }
    let work = stages.work();
    let index = stages.first_send()?;
    Some(Act::Send {
        op: work.piece_op(),
        number: stages.first_number() + index,
    })
}

/// The first piece whose bytes are to be read.
pub(crate) fn first_read(stages: &TaskStages, stopped: bool) -> Option<Act>
    ensures { result ≡ (if not stopped && is_upload stages.now.work.of_kind
        && (stages.now.work.small || has_done stages.now.singles.create)
        then numbered act.Read (first_number stages.now.work) (position can_read stages.now.pieces) else None) }
{
    let work = stages.work();
    if stopped || !matches!(work.of_kind, Kind::Upload) {
        return None;
    }
    if !work.small && !has_done(stages.singles().create) {
        return None;
    }
    let index = stages.first_read()?;
    Some(Act::Read {
        number: stages.first_number() + index,
    })
}
