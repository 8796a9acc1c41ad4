//! How far an act is once it was given, and once it came back.

ghost use Rattle.std.specs.Prelude.{◌≡◌, is_some};
ghost use Rattle.task_acts.specs.Failures.{ended_cause};
ghost use Rattle.task_acts.specs.Stages.{carried_stage, file_stage, given_stage};
ghost use Rattle.task_causes.specs.Pieces.{HasNumber};

use crate::endings::is_cut_short;
use crate::replies::is_asked_for;
use jobs::{Carried, Ending};
use s3_model::Op;
use task_acts::{FileCame, Stage, Work};

/// Whether an ending shows a cause.
fn has_cause(work: &Work, op: Op, number: u32, ending: &Ending) -> bool
    requires { HasNumber work.now number }
    ensures { result ≡ is_some (ended_cause work.now op number ending.now) }
{
    match ending {
        Ending::Gained(reply) => !is_asked_for(work, number, reply),
        _ => true,
    }
}

/// How far an act is that is given.
pub fn given_stage(before: Stage) -> Stage
    ensures { result ≡ given_stage before }
{
    match before {
        Stage::Kept => Stage::Again,
        _ => Stage::Out,
    }
}

/// How far the act of a job is that came back: where it was cut short before a failure and before a cancel, it is kept
/// to be given again.
pub fn carried_stage(work: &Work, stopped: bool, carried: &Carried) -> Stage
    requires { HasNumber work.now carried.now.job.id.number }
    ensures { result ≡ carried_stage work.now stopped carried.now }
{
    let id = carried.job.id;
    if is_cut_short(work, carried) {
        if stopped { Stage::Failed } else { Stage::Kept }
    } else if has_cause(work, id.op, id.number, &carried.ending) {
        Stage::Failed
    } else {
        Stage::Fine
    }
}

/// How far a call on files is that came back.
pub fn file_stage(came: FileCame) -> Stage
    ensures { result ≡ file_stage came }
{
    match came {
        FileCame::Fine => Stage::Fine,
        _ => Stage::Failed,
    }
}
