//! The jobs of a task that are kept to be given again.

ghost use Rattle.std.specs.Prelude.{◌≡◌, ◌<◌, ◌+◌, ◌^◌, ℕ, None, IfOk, if◌then◌else◌, get_or, length, set};
ghost use Rattle.s3_model.specs.declared.requests.Op.{Op};
ghost use Rattle.task_acts.specs.declared.acts.Act.TheVariants as act;
ghost use Rattle.task_acts.specs.Histories.{is_act};
ghost use Rattle.kept_jobs.specs.Slots.{HasSlot, job_at, piece_slot, rank, slot, slots};

use jobs::Job;
use s3_model::{Op, OutOfMemory, nones};
use std::alloc::Global;
use std::marker::Model;
use std::mem;
use task_acts::Work;

/// A place for each job of a task.
///
/// Contracts see the work of the task and what stands at each place.
#[derive(Drop)]
pub struct KeptJobs {
    work: Work,
    jobs: Vec<Option<Job>>,
}

impl Model for KeptJobs {
    ghost use Rattle.kept_jobs.specs.Slots.{HasSlots, SeenKept};

    ghost Value = { SeenKept };

    ghost view = { λ k. record { work = k.work; jobs = k.jobs.items } };

    ghost invariant = { λ k. HasSlots k.work k.jobs.items };
}

/// The place of a job that a task has once; 4 for every other op.
fn rank(op: Op) -> usize
    ensures { result ≡ rank op }
{
    match op {
        Op::Create => 0,
        Op::Complete => 1,
        Op::Abort => 2,
        Op::Delete => 3,
        _ => 4,
    }
}

/// The place of a piece's job.
fn piece_slot(work: &Work, op: Op, number: u32) -> usize
    ensures { result ≡ piece_slot work.now op number }
{
    let first = work.first_number();
    if !work.has_piece_op(op) || number < first {
        4 + work.count as usize
    } else {
        4 + (number - first) as usize
    }
}

/// The place of a job among those of a task of that work: `4 + count` places, and a place behind them for one that it has not.
pub fn slot(work: &Work, op: Op, number: u32) -> usize
    ensures { result ≡ slot work.now op number }
{
    let rank = rank(op);
    if rank == 4 {
        piece_slot(work, op, number)
    } else if number == 0 {
        rank
    } else {
        4 + work.count as usize
    }
}

impl KeptJobs {
    /// No job is kept. It takes all the memory that the places need.
    pub fn make(alloc: Global, work: Work) -> Result<KeptJobs, OutOfMemory>
        requires { work.count + 1 < 2 ^ 32 }
        ensures work { IfOk result (λ kept. kept.work ≡ work) }
        ensures none { IfOk result (λ kept. (of_op : Op) (number : ℕ) → job_at kept of_op number ≡ None) }
    {
        let jobs = nones(alloc, 4 + work.count as usize)?;
        Ok(KeptJobs { work, jobs })
    }

    /// What stood at a place, where that stands now.
    fn replace(&mut self, slot: usize, job: Option<Job>) -> Option<Job>
        requires { slot < length self.old.jobs }
        ensures result { result ≡ get_or self.old.jobs slot None }
        ensures work { self.new.work ≡ self.old.work }
        ensures jobs { self.new.jobs ≡ set self.old.jobs slot job }
    {
        mem::replace(&mut self.jobs[slot], job)
    }

    fn slot(&self, op: Op, number: u32) -> usize
        ensures { result ≡ slot self.now.work op number }
    {
        slot(&self.work, op, number)
    }

    /// How many places there are.
    fn len(&self) -> usize
        ensures len { result ≡ length self.now.jobs }
        ensures slots { length self.now.jobs ≡ slots self.now.work }
    {
        self.jobs.len()
    }

    /// Keeps a job, or none, at the place of that op and number. What stood there is dropped.
    pub fn put(&mut self, op: Op, number: u32, job: Option<Job>)
        requires { HasSlot self.old.work op number }
        ensures work { self.new.work ≡ self.old.work }
        ensures jobs { (other : Op) (at : ℕ) → job_at self.new other at
            ≡ (if is_act (act.Send other at) (act.Send op number) then job else job_at self.old other at) }
    {
        let slot = self.slot(op, number);
        let _len = self.len();
        let before = self.replace(slot, job);
        mem::drop(before);
    }

    /// The job that is kept at the place of that op and number, which is empty then.
    pub fn take(&mut self, op: Op, number: u32) -> Option<Job>
        ensures result { result ≡ job_at self.old op number }
        ensures work { self.new.work ≡ self.old.work }
        ensures jobs { (other : Op) (at : ℕ) → job_at self.new other at
            ≡ (if is_act (act.Send other at) (act.Send op number) then None else job_at self.old other at) }
    {
        let slot = self.slot(op, number);
        if slot < self.len() {
            self.replace(slot, None)
        } else {
            None
        }
    }
}
