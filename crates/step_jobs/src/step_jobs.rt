//! What is made with a task for its jobs, and the jobs that are formed of it.

ghost use Rattle.std.specs.Prelude.{◌≡◌, ◌<◌, ◌+◌, ◌^◌, ℕ, IfOk, IfSome, IsSome, None, OnErr, Option, Some, get_or};
ghost use Rattle.std.specs.Prelude.{is_some, length, not, replicate, set};
ghost use Rattle.std.specs.Arc.{arc_value};
ghost use Rattle.kept_jobs.specs.Slots.{HasSlot, slot, slots};
ghost use Rattle.job_terms.specs.Ops.{is_op};
ghost use Rattle.s3_model.specs.declared.requests.Op.{Op};
ghost use Rattle.s3_model.specs.declared.requests.Op.TheVariants as op_of;
ghost use Rattle.step_jobs.specs.Formed.{FitsJob, IsFormed, range_at};
ghost use Rattle.step_jobs.specs.Requests.{BeginsWithin};
ghost use Rattle.step_jobs.specs.Shares.{HasAll, HasShare, HearsReason, IsShareOf, SeenShare, share_at, share_of};
ghost use Rattle.task_acts.specs.Histories.{is_act};
ghost use Rattle.task_acts.specs.declared.acts.Act.TheVariants as act;

use jobs::{CancelCell, Job, What};
use kept_jobs::slot;
use s3_model::{JobId, Op, OutOfMemory, Part, Reason, Task, Texts, UploadId};
use std::alloc::Global;
use std::marker::Model;
use std::sync::Arc;
use task_acts::Work;

/// One job's share of its task and of its cancel cell.
#[derive(Drop)]
struct Share {
    task: Arc<Task, Global>,
    cell: CancelCell,
}

impl Model for Share {
    ghost use Rattle.std.specs.Arc.{arc_value};
    ghost use Rattle.step_jobs.specs.Shares.{SeenShare};

    ghost Value = { SeenShare };

    ghost view = { λ s. record { task = arc_value s.task; cell = s.cell.cell } };
}

/// What a job is given beside its share: its id, its part, the upload that it belongs to, and the entity tags of the
/// parts that it joins.
#[derive(Drop)]
pub struct Given {
    pub id: JobId,
    pub part: Option<Part>,
    pub upload: Option<UploadId>,
    pub etags: Option<Texts>,
}

/// A task with a share for each job that it can have, so that forming a job takes no memory.
#[derive(Drop)]
pub struct StepJobs {
    work: Work,
    task: Arc<Task, Global>,
    cell: CancelCell,
    shares: Vec<Option<Share>>,
}

impl Model for StepJobs {
    ghost use Rattle.std.specs.Arc.{arc_value};
    ghost use Rattle.step_jobs.specs.Shares.{HasPlaces, SeenSteps};

    ghost Value = { SeenSteps };

    ghost view = { λ s. record {
      task = arc_value s.task;
      work = s.work;
      cell = s.cell;
      shares = s.shares.items;
    } };

    ghost invariant = { λ s. HasPlaces (arc_value s.task) s.work s.cell s.shares.items };
}

fn make_share(task: &Arc<Task, Global>, cell: &mut CancelCell) -> Result<Share, OutOfMemory>
    ensures same { cell.new ≡ cell.old }
    ensures share { IfOk result (λ share. share ≡ share_of (arc_value task.now) cell.old) }
{
    Ok(Share {
        task: Arc::try_clone(task)?,
        cell: cell.share()?,
    })
}

/// So many shares.
fn make_shares(
    alloc: Global,
    task: &Arc<Task, Global>,
    cell: &mut CancelCell,
    count: usize,
) -> Result<Vec<Option<Share>>, OutOfMemory>
    ensures same { cell.new ≡ cell.old }
    ensures many { IfOk result (λ shares. shares.items ≡
        replicate count (Some (share_of (arc_value task.now) cell.old))) }
{
    let mut shares = Vec::with_capacity(alloc, count)?;
    for _ in 0..count {
        shares.push_reserved(Some(make_share(task, cell)?));
    }
    Ok(shares)
}

/// The place and the length in bytes of a piece of a task of that work; where the number is 0, of the first one.
pub fn range_of(work: &Work, number: u32) -> (u64, u64)
    requires { BeginsWithin work.now number }
    ensures { result ≡ range_at work.now number }
{
    let before = number.saturating_sub(1) as u64 * work.piece;
    (before, work.piece.min(work.size - before))
}

/// Only an Abort has no cell.
fn cell_for(op: Op, cell: CancelCell) -> Option<CancelCell>
    ensures has { is_some result ≡ not (is_op op op_of.Abort) }
    ensures cell { IfSome result (λ holder. holder ≡ cell) }
{
    match op {
        Op::Abort => None,
        _ => Some(cell),
    }
}

impl StepJobs {
    /// The jobs of a task of that work, of which none was formed. It takes all the memory that they need but that of
    /// their parts.
    pub fn make(alloc: Global, task: &Task, work: Work) -> Result<StepJobs, OutOfMemory>
        requires { work.count + 1 < 2 ^ 32 }
        ensures task { IfOk result (λ made. made.task ≡ task.now) }
        ensures work { IfOk result (λ made. made.work ≡ work) }
        ensures unheard { IfOk result (λ made. made.cell.known ≡ None) }
        ensures whole { IfOk result HasAll }
    {
        let task = task.share(alloc)?;
        let mut cell = CancelCell::make(alloc)?;
        let shares = make_shares(alloc, &task, &mut cell, 4 + work.count as usize)?;
        Ok(StepJobs {
            work,
            task,
            cell,
            shares,
        })
    }

    /// The task.
    pub fn task(&self) -> &Task
        ensures { result.now ≡ self.now.task }
    {
        &self.task
    }

    /// Gives the cell of the task this reason, unless it has one: its jobs that are out hear it. After want of memory
    /// nothing has changed.
    pub fn cancel(&mut self, alloc: Global, reason: Reason) -> Result<(), OutOfMemory>
        ensures kept { OnErr result (self.new ≡ self.old) }
        ensures heard { IfOk result (λ _. HearsReason self.old self.new) }
    {
        self.cell.cancel(alloc, reason)
    }

    /// The share at a place, which is empty then.
    #[tactic(auto, using(crate::proofs::Shares::alike_without))]
    fn take_at(&mut self, place: usize) -> Option<Share>
        requires { place < length self.old.shares }
        ensures share { result ≡ get_or self.old.shares place None }
        ensures same { IfSome result (IsShareOf self.old.task self.old.cell) }
        ensures task { self.new.task ≡ self.old.task }
        ensures work { self.new.work ≡ self.old.work }
        ensures cell { self.new.cell ≡ self.old.cell }
        ensures shares { self.new.shares ≡ set self.old.shares place None }
    {
        self.shares[place].take()
    }

    #[tactic(auto, using(crate::proofs::Shares::place_there))]
    fn take(&mut self, op: Op, number: u32) -> Share
        requires { HasShare self.old op number }
        ensures share { IsShareOf self.old.task self.old.cell result }
        ensures task { self.new.task ≡ self.old.task }
        ensures work { self.new.work ≡ self.old.work }
        ensures cell { self.new.cell ≡ self.old.cell }
        ensures shares { self.new.shares ≡ set self.old.shares (slot self.old.work op number) None }
    {
        let place = slot(&self.work, op, number);
        let Some(share) = self.take_at(place) else {
            unreachable!()
        };
        share
    }

    /// The job of that op and number, at its first giving: with a cell, unless it is an Abort.
    pub fn form(&mut self, given: Given) -> Job
        requires share { HasShare self.old given.id.op given.id.number }
        requires fits { FitsJob self.old.task self.old.work given }
        ensures formed { IsFormed self.old given result }
        ensures task { self.new.task ≡ self.old.task }
        ensures work { self.new.work ≡ self.old.work }
        ensures cell { self.new.cell ≡ self.old.cell }
        ensures shares { self.new.shares ≡ set self.old.shares (slot self.old.work given.id.op given.id.number) None }
    {
        let Given {
            id,
            part,
            upload,
            etags,
        } = given;
        let range = range_of(&self.work, id.number);
        let Share { task, cell } = self.take(id.op, id.number);
        Job {
            id,
            what: What::Step {
                task,
                range,
                upload,
                etags,
            },
            part,
            hash: None,
            cell: cell_for(id.op, cell),
            had: 0,
        }
    }
}
