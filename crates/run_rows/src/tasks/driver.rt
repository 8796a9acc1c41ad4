//! A task that is driven by hand.

ghost use Rattle.std.specs.Prelude.{◌≡◌, ◌<◌, ◌≤◌, ◌+◌, ◌^◌, IfOk, IfSome};
ghost use Rattle.task_acts.specs.declared.acts.Act.TheVariants as act;
ghost use Rattle.task_acts.specs.Histories.{sent};
ghost use Rattle.task_acts.specs.Stages.{is_out};
ghost use Rattle.task_core.specs.Machine.{IsNumbered, keeps_tags};

use crate::tasks::jobs_back::job_back;
use crate::tasks::shown::state_shown;
use jobs::Carried;
use row_words::ended_as;
use s3_model::{Kind, Op, OutOfMemory, Reason, Texts, UploadId};
use std::alloc::{AllocError, Global};
use std::marker::Model;
use std::mem;
use task_acts::{Act, FileCame, Stage, Work};
use task_core::TaskState;

/// A task, and whether the entity tags of its parts are there.
#[derive(Drop)]
pub(crate) struct Driver {
    state: TaskState,
    has_tags: bool,
}

impl Model for Driver {
    ghost use Rattle.std.specs.Prelude.{◌≡◌, is_some};
    ghost use Rattle.task_core.specs.Machine.{SeenTask};

    ghost Value = { SeenTask };

    ghost view = { λ d. d.state };

    ghost invariant = { λ d. d.has_tags ≡ is_some d.state.tags };
}

/// The attempts of the job that is kept for an act, which is taken.
fn attempts_kept(state: &mut TaskState, act: Act) -> Option<u32>
    ensures stages { state.new.stages ≡ state.old.stages }
    ensures tags { state.new.tags ≡ state.old.tags }
{
    let Act::Send { op, number } = act else {
        return None;
    };
    match state.kept(op, number) {
        Some(job) => {
            let had = job.had;
            mem::drop(job);
            Some(had)
        }
        None => None,
    }
}

fn has_parts(work: &Work) -> bool
    ensures { result ≡ keeps_tags work.now }
{
    matches!(work.of_kind, Kind::Upload | Kind::Copy) && !work.small
}

fn is_out(stage: Stage) -> bool
    ensures { result ≡ is_out stage }
{
    matches!(stage, Stage::Out | Stage::Again)
}

/// The job that comes back as a line says, with a cell or without, or None where it cannot.
fn carried_so(
    alloc: Global,
    op: Op,
    number: u32,
    has_cell: bool,
    came: &str,
) -> Result<Option<Carried>, OutOfMemory>
    ensures id { IfOk result (λ c. IfSome c (λ carried. sent carried ≡ act.Send op number)) }
    ensures had { IfOk result (λ c. IfSome c (λ carried. carried.job.had ≡ 0)) }
{
    match ended_as(alloc, op, number, came) {
        Ok(Some(ended)) => job_back(alloc, op, number, has_cell, ended),
        Ok(None) => Ok(None),
        Err(OutOfMemory) => Err(OutOfMemory),
    }
}

impl Driver {
    pub(crate) fn make(alloc: Global, work: Work) -> Result<Driver, OutOfMemory>
        requires few { work.count + 1 < 2 ^ 32 }
        requires attempts { work.attempts ≤ 10 }
        requires numbers { IsNumbered work }
    {
        let has_tags = has_parts(&work);
        match TaskState::make(alloc, work) {
            Ok(state) => Ok(Driver { state, has_tags }),
            Err(OutOfMemory) => Err(OutOfMemory),
        }
    }

    /// What is shown of the task.
    pub(crate) fn shown(&self, alloc: Global) -> Result<String, AllocError> {
        state_shown(alloc, self.state.ready(), self.state.outcome())
    }

    pub(crate) fn is_failing(&self) -> bool {
        self.state.failing()
    }

    pub(crate) fn upload(&self) -> Option<UploadId> {
        self.state.upload()
    }

    /// The entity tags, unless they were given away or the task has none.
    pub(crate) fn tags(&mut self) -> Option<Texts> {
        if !self.has_tags {
            return None;
        }
        self.has_tags = false;
        Some(self.state.etags())
    }

    /// Gives the act that is ready, and answers the attempts that its job had made if it is given again.
    pub(crate) fn give(&mut self) -> Option<u32> {
        let ready = self.state.ready()?;
        let had = attempts_kept(&mut self.state, ready);
        let act = self.state.ready()?;
        self.state.gave(act);
        had
    }

    /// The call on files comes back, if it is out.
    pub(crate) fn return_call(&mut self, act: Act, came: FileCame) -> bool {
        if !is_out(self.state.stage(act)) {
            return false;
        }
        self.state.file_came(act, came);
        true
    }

    /// The job comes back with what a line says of it, if it is out and can come so. It has a cell at its first giving,
    /// unless it is an Abort.
    pub(crate) fn return_job(
        &mut self,
        alloc: Global,
        op: Op,
        number: u32,
        came: &str,
    ) -> Result<bool, OutOfMemory> {
        let stage = self.state.stage(Act::Send { op, number });
        if !is_out(stage) {
            return Ok(false);
        }
        let has_cell = matches!(stage, Stage::Out) && !matches!(op, Op::Abort);
        match carried_so(alloc, op, number, has_cell, came) {
            Ok(Some(carried)) => {
                let part = self.state.came(carried);
                mem::drop(part);
                Ok(true)
            }
            Ok(None) => Ok(false),
            Err(OutOfMemory) => Err(OutOfMemory),
        }
    }

    pub(crate) fn cancel(&mut self, reason: Reason) {
        self.state.cancel(reason);
    }
}
