//! The place for the jobs of one task.

ghost use Rattle.std.specs.Prelude.{◌≡◌, ◌^◌, ◌+◌, ◌<◌, None, Some, IfOk, IfSome, IsSomeAnd, OnErr, OnOk, is_some};
ghost use Rattle.step_jobs.specs.Formed.{IsFormed};
ghost use Rattle.step_jobs.specs.Shares.{HasAll, SeenSteps};
ghost use Rattle.step_laws.specs.Following.{IsTakenFor};
ghost use Rattle.manager_core.specs.Cells.{CellStays};
ghost use Rattle.manager_core.specs.Steps.{CanForm, HeardBy};

use jobs::Job;
use s3_model::{OutOfMemory, Reason, Task};
use std::alloc::Global;
use std::marker::Model;
use step_jobs::{Given, StepJobs};
use task_acts::Work;

/// The jobs of a task, where it is made and has not ended. It is as wide as a pointer.
#[derive(Drop)]
pub(crate) struct StepSlot {
    jobs: Option<Box<StepJobs>>,
}

impl Model for StepSlot {
    ghost use Rattle.std.specs.Box.{box_value};
    ghost use Rattle.std.specs.Option.{option_map};
    ghost use Rattle.std.specs.Prelude.{Option};
    ghost use Rattle.step_jobs.specs.Shares.{SeenSteps};

    ghost Value = { Option SeenSteps };

    ghost view = { λ s. option_map box_value s.jobs };
}

impl StepSlot {
    /// No jobs.
    pub(crate) fn empty() -> StepSlot
        ensures { result ≡ None }
    {
        StepSlot { jobs: None }
    }

    /// The jobs of a task of that work, of which none was formed.
    pub(crate) fn make(alloc: Global, task: &Task, work: Work) -> Result<StepSlot, OutOfMemory>
        requires { work.count + 1 < 2 ^ 32 }
        ensures whole { IfOk result (λ slot. IsSomeAnd slot
            (λ j. (j.task ≡ task.now) × (j.work ≡ work) × HasAll j)) }
        ensures unheard { IfOk result (λ slot. IfSome slot (λ j. j.cell.known ≡ None)) }
    {
        let jobs = StepJobs::make(alloc, task, work)?;
        Ok(StepSlot {
            jobs: Some(Box::new(alloc, jobs)?),
        })
    }

    /// The job of that op and number, at its first giving.
    pub(crate) fn form(&mut self, given: Given) -> Job
        requires { CanForm self.old given }
        ensures formed { (j : SeenSteps) → self.old ≡ Some j → IsFormed j given result }
        ensures taken { (j : SeenSteps) → self.old ≡ Some j
            → IsSomeAnd self.new (IsTakenFor given.id.op given.id.number j) }
        ensures cell { CellStays self.old self.new }
    {
        let Some(jobs) = &mut self.jobs else {
            unreachable!()
        };
        jobs.form(given)
    }

    /// Whether the task is made and has not ended.
    pub(crate) fn has_jobs(&self) -> bool
        ensures { result ≡ is_some self.now }
    {
        self.jobs.is_some()
    }

    /// The jobs of the task that are out hear that reason, unless they heard another. Without jobs nothing hears it.
    pub(crate) fn cancel(&mut self, alloc: Global, reason: Reason) -> Result<(), OutOfMemory>
        ensures kept { OnErr result (self.new ≡ self.old) }
        ensures heard { OnOk result (HeardBy self.old self.new) }
    {
        match &mut self.jobs {
            Some(jobs) => jobs.cancel(alloc, reason),
            None => Ok(()),
        }
    }
}
