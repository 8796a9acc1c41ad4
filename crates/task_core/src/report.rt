//! What a job that came back says.

ghost use Rattle.std.specs.Prelude.{◌≡◌, ◌&&◌, not, length};
ghost use Rattle.std.specs.List.{list_any};
ghost use Rattle.jobs.specs.Endings.{IsEnded};
ghost use Rattle.task_acts.specs.Ends.{decides, has_tries, is_uncertain};
ghost use Rattle.task_acts.specs.Failures.{is_cut_short};
ghost use Rattle.task_acts.specs.Kept.{is_kept};
ghost use Rattle.task_acts.specs.Stages.{carried_stage};
ghost use Rattle.task_causes.specs.Pieces.{HasNumber};

use crate::shown::{is_last, is_open};
use jobs::{Carried, Ending, Job};
use s3_model::JobId;
use task_acts::{Stage, Work};
use task_causes::{carried_stage, is_cut_short};

/// What a job that came back says of its act and of its task.
#[derive(Clone, Copy)]
pub(crate) struct Report {
    pub(crate) id: JobId,
    /// How far its act is now.
    pub(crate) stage: Stage,
    /// It was cut short by its cell.
    pub(crate) is_cut: bool,
    /// It is kept to be given again.
    pub(crate) is_kept: bool,
    /// It shows what the deciding request did last.
    pub(crate) is_last: bool,
    /// It shows that an attempt of the deciding request left open what it did.
    pub(crate) is_open: bool,
    /// How many attempts it made.
    pub(crate) made: usize,
}

fn made(carried: &Carried) -> usize
    ensures { result ≡ length carried.now.tries }
{
    carried.tries.as_slice().len()
}

fn is_kept(is_cut: bool, stopped: bool) -> bool
    ensures { result ≡ (is_cut && not stopped) }
{
    is_cut && !stopped
}

pub(crate) fn report_of(work: &Work, stopped: bool, carried: &Carried) -> Report
    requires { HasNumber work.now carried.now.job.id.number }
    ensures id { result.id ≡ carried.now.job.id }
    ensures stage { result.stage ≡ carried_stage work.now stopped carried.now }
    ensures is_cut { result.is_cut ≡ is_cut_short work.now carried.now }
    ensures is_kept { result.is_kept ≡ is_kept work.now stopped carried.now }
    ensures is_last { result.is_last ≡ (decides work.now carried.now && has_tries carried.now) }
    ensures is_open { result.is_open ≡ (decides work.now carried.now && list_any is_uncertain carried.now.tries) }
    ensures made { result.made ≡ length carried.now.tries }
{
    let is_cut = is_cut_short(work, carried);
    Report {
        id: carried.id(),
        stage: carried_stage(work, stopped, carried),
        is_cut,
        is_kept: is_kept(is_cut, stopped),
        is_last: is_last(work, carried),
        is_open: is_open(work, carried),
        made: made(carried),
    }
}

/// A job that came back, and how it ended.
#[derive(Drop)]
pub(crate) struct Parted {
    pub(crate) job: Job,
    pub(crate) ending: Ending,
}

pub(crate) fn take_apart(carried: Carried) -> Parted
    ensures job { result.job ≡ carried.job }
    ensures ending { result.ending ≡ carried.ending }
    ensures ended { IsEnded carried.ending carried.job.id.op carried.job.part carried.job.cell carried.tries }
{
    let Carried { job, ending, .. } = carried;
    Parted { job, ending }
}
