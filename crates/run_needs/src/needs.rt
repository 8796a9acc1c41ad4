//! The needs of the tasks of a plan.

ghost use Rattle.std.specs.Prelude.{◌≡◌, ◌≤◌, ◌+◌, All, length};
ghost use Rattle.run_needs.specs.Jobs.{jobs_of, source_jobs, upload_jobs};
ghost use Rattle.run_needs.specs.Needs.{AreNeedsOf, CanBegin, part_bytes};
ghost use Rattle.s3_model.specs.Validity.{IsValidConfig, IsValidLimits};

use s3_model::{Config, Kind, Limits, Task};
use task_acts::Work;
use task_works::work_of;

/// What the tasks of a run need of it.
#[derive(Clone, Copy)]
pub struct Needs {
    /// How many entries their jobs have in a journal at most.
    pub entries: usize,
    /// How many bytes the longest piece has that stands in a part.
    pub bytes: u64,
}

fn upload_count(small: bool) -> usize
    ensures { result ≡ length (upload_jobs small) }
{
    if small { 0 } else { 3 }
}

fn source_count(moves: bool) -> usize
    ensures { result ≡ length (source_jobs moves) }
{
    if moves { 1 } else { 0 }
}

/// How many jobs a task can have.
#[tactic(auto, using(crate::proofs::JobLemmas::job_counts))]
fn job_count(work: &Work) -> usize
    ensures count { result ≡ length (jobs_of work.now) }
    ensures few { result ≤ work.now.count + 4 }
{
    let pieces = work.count as usize;
    match work.of_kind {
        Kind::Upload => pieces + upload_count(work.small),
        Kind::Download => pieces + source_count(work.moves),
        Kind::Copy => pieces + upload_count(work.small) + source_count(work.moves),
        Kind::RemoveObject => 1,
        Kind::RemoveFile => 0,
    }
}

/// How many bytes of a piece stand in a part. Those of a copy go from object to object.
fn part_bytes(work: &Work) -> u64
    ensures { result ≡ part_bytes work.now }
{
    match work.of_kind {
        Kind::Upload | Kind::Download => work.piece,
        Kind::Copy | Kind::RemoveObject | Kind::RemoveFile => 0,
    }
}

/// What a run of these tasks needs: room for each entry that they can come to, and parts in which each piece fits.
pub fn needs_of(tasks: &[Task], config: &Config, limits: &Limits) -> Needs
    requires config { IsValidConfig config.now }
    requires limits { IsValidLimits limits.now }
    requires tasks { All (CanBegin limits.now) tasks.now }
    requires few { length tasks.now ≤ 1000000 }
    ensures { AreNeedsOf config.now limits.now tasks.now result }
{
    let mut needs = Needs {
        entries: 0,
        bytes: 0,
    };
    for task in tasks {
        let work = work_of(task, config, limits);
        needs.entries += 4 * job_count(&work);
        needs.bytes = needs.bytes.max(part_bytes(&work));
    }
    needs
}
