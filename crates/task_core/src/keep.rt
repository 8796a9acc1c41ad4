//! Jobs that are kept to be given again.

ghost use Rattle.std.specs.Prelude.{◌≡◌, ◌≤◌, ◌+◌, ℕ, true, None, if◌then◌else◌};
ghost use Rattle.kept_jobs.specs.Slots.{HasSlot, job_at};
ghost use Rattle.s3_model.specs.declared.requests.Op.{Op};
ghost use Rattle.task_acts.specs.declared.acts.Act.TheVariants as act;
ghost use Rattle.task_acts.specs.Histories.{is_act};
ghost use Rattle.task_core.specs.Shown.{behind, kept_if};

use jobs::Job;
use kept_jobs::KeptJobs;
use s3_model::Part;
use std::mem;

/// A job without its cell, behind so many attempts.
fn behind(job: Job, tries: usize) -> Job
    requires { job.had + tries ≤ 9 }
    ensures { result ≡ behind job tries }
{
    let Job {
        id,
        what,
        part,
        hash,
        had,
        ..
    } = job;
    Job {
        id,
        what,
        part,
        hash,
        cell: None,
        had: had + tries as u32,
    }
}

/// The part of a job that is needed no longer.
fn part_of(job: Job) -> Option<Part>
    ensures { result ≡ job.part }
{
    let Job { what, part, .. } = job;
    mem::drop(what);
    part
}

/// Keeps a job that came back, or hands its part back.
pub(crate) fn keep(kept: &mut KeptJobs, job: Job, tries: usize, is_kept: bool) -> Option<Part>
    requires slot { HasSlot kept.old.work job.id.op job.id.number }
    requires few { is_kept ≡ true → job.had + tries ≤ 9 }
    ensures part { result ≡ (if is_kept then None else job.part) }
    ensures work { kept.new.work ≡ kept.old.work }
    ensures jobs { (other : Op) (at : ℕ) → job_at kept.new other at
        ≡ (if is_act (act.Send other at) (act.Send job.id.op job.id.number) then kept_if is_kept job tries
        else job_at kept.old other at) }
{
    let id = job.id;
    if is_kept {
        kept.put(id.op, id.number, Some(behind(job, tries)));
        None
    } else {
        kept.put(id.op, id.number, None);
        part_of(job)
    }
}
