//! One task as a machine of acts.

ghost use Rattle.std.specs.Option.{option_or};
ghost use Rattle.std.specs.Prelude.{◌≡◌, ◌≤◌, ◌<◌, ◌+◌, ◌^◌, ◌∷◌, [], ◌||◌, ℕ, true, false, None, Some, IfOk, IfSome, IsSome, is_some, not, if◌then◌else◌};
ghost use Rattle.kept_jobs.specs.Slots.{job_at};
ghost use Rattle.kept_jobs.specs.Tags.{HasPart, present};
ghost use Rattle.s3_model.specs.declared.requests.Op.{Op};
ghost use Rattle.s3_model.specs.declared.requests.Op.TheVariants as op;
ghost use Rattle.task_acts.specs.declared.acts.Act.TheVariants as act_of;
ghost use Rattle.task_acts.specs.Histories.{Came, Cancelled, Gave, History, Returned, Taken, is_act, sent};
ghost use Rattle.std.specs.Option.{option_copied};
ghost use Rattle.task_acts.specs.declared.work.Work.{Work};
ghost use Rattle.task_acts.specs.Ends.{outcome_of};
ghost use Rattle.task_acts.specs.Failures.{first_failure, is_stopped};
ghost use Rattle.task_acts.specs.Stages.{carried_stage, file_stage, given_stage, is_out, stage};
ghost use Rattle.task_acts.specs.Kept.{etags_of, kept_job, part_back, upload_of};
ghost use Rattle.task_acts.specs.Rule.{first_ready, first_ready_in, is_idle};
ghost use Rattle.task_core.specs.Machine.{HasTags, IsNumbered, IsSettled, IsSound, SeenTask, Stands, keeps_tags, ready_by, tags_in};
ghost use Rattle.task_ends.specs.Causes.{is_stopped_by, no_causes};
ghost use Rattle.task_core.specs.Steps.{IsCame, IsCancelled, IsGiven, IsMarked, IsReturned, IsTaken, tagged};
ghost use Rattle.task_stages.specs.Stages.{HasAct, stage_by};

use crate::gains::{Gains, gains_of};
use crate::keep::keep;
use crate::report::{Parted, report_of, take_apart};
use jobs::{Carried, Job};
use kept_jobs::{KeptJobs, PartTags};
use s3_model::{JobId, Kind, Op, OutOfMemory, Outcome, Part, Reason, Text, Texts, UploadId};
use std::alloc::Global;
use std::marker::Model;
use std::mem;
use task_acts::{Act, FileCame, Stage, Work};
use task_causes::{file_cause, file_stage, given_stage};
use task_ends::Causes;
use task_readiness::{first_ready, is_decided, is_idle, is_whole};
use task_stages::TaskStages;

/// One task, of any kind.
#[derive(Drop)]
pub struct TaskState {
    stages: TaskStages,
    causes: Causes,
    outcome: Option<Outcome>,
    kept: KeptJobs,
    tags: Option<PartTags>,
    upload: Option<UploadId>,
}

impl Model for TaskState {
    ghost use Rattle.task_core.specs.Machine.{IsSound, SeenTask};

    ghost Value = { SeenTask };

    ghost view = { λ t. record {
      stages = t.stages;
      causes = t.causes;
      outcome = t.outcome;
      kept = t.kept;
      tags = t.tags;
      upload = t.upload;
    } };

    ghost invariant = { λ t. IsSound t.stages t.kept t.tags };
}

/// Whether an act is ready or out.
fn goes_on(stages: &TaskStages, causes: &Causes) -> bool
    ensures { result ≡ (is_some (first_ready stages.now.work (stage_by stages.now) (is_stopped_by causes.now))
        || not (is_idle stages.now.work (stage_by stages.now) (is_stopped_by causes.now))) }
{
    first_ready(stages, causes.is_stopped()).is_some() || !is_idle(stages)
}

/// The first act that is ready.
fn next_act(stages: &TaskStages, causes: &Causes) -> Option<Act>
    ensures { result ≡ first_ready stages.now.work (stage_by stages.now) (is_stopped_by causes.now) }
{
    first_ready(stages, causes.is_stopped())
}

/// Places for the entity tags of an upload or a copy in parts.
fn empty_tags(alloc: Global, work: &Work) -> Result<Option<PartTags>, OutOfMemory>
    ensures tags { IfOk result (HasTags work.now) }
    ensures some { IfOk result (λ tags. is_some tags ≡ keeps_tags work.now) }
{
    if !matches!(work.of_kind, Kind::Upload | Kind::Copy) || work.small {
        return Ok(None);
    }
    Ok(Some(PartTags::make(alloc, 1, work.count)?))
}

fn shown(outcome: &Option<Outcome>) -> Option<&Outcome>
    ensures { option_copied result ≡ outcome.now }
{
    outcome.as_ref()
}

fn copy_of(upload: &Option<UploadId>) -> Option<UploadId>
    ensures { result ≡ upload.now }
{
    match upload {
        Some(upload) => Some(upload.copy()),
        None => None,
    }
}

fn take_tags(tags: &mut Option<PartTags>) -> Texts
    requires { IsSome tags.old }
    ensures items { result.items ≡ present (tags_in tags.old) }
    ensures none { tags.new ≡ None }
{
    let Some(tags) = tags.take() else {
        unreachable!()
    };
    tags.into_texts()
}

/// No job is kept for an act that is given.
fn unkeep(kept: &mut KeptJobs, act: Act)
    ensures work { kept.new.work ≡ kept.old.work }
    ensures jobs { (of_op : Op) (number : ℕ) → job_at kept.new of_op number
        ≡ (if is_act (act_of.Send of_op number) act then None else job_at kept.old of_op number) }
{
    match act {
        Act::Send { op, number } => {
            let kept = kept.take(op, number);
            mem::drop(kept);
        }
        Act::Read { .. } | Act::Place { .. } => {}
        Act::Assemble | Act::Rename | Act::DropTemp | Act::Remove | Act::Stamp => {}
    }
}

/// A part came with that entity tag, or with none.
fn tag(tags: &mut Option<PartTags>, is_part: bool, number: u32, tag: Option<Text>)
    requires { IfSome tags.old (λ x. is_part ≡ true → HasPart x number) }
    ensures { tags.new ≡ tagged is_part number tag tags.old }
{
    if !is_part {
        return;
    }
    if let Some(tags) = tags {
        tags.put(number, tag);
    }
}

/// The upload of a task, where a Create may have named it.
fn named(upload: Option<UploadId>, id: JobId, before: Option<UploadId>) -> Option<UploadId>
    ensures { result ≡ option_or
        (if is_act (act_of.Send op.Create 0) (act_of.Send id.op id.number) then upload else None) before }
{
    if matches!(id.op, Op::Create) && id.number == 0 {
        upload.or(before)
    } else {
        before
    }
}

impl TaskState {
    /// A task of these places, of which nothing happened.
    fn of(stages: TaskStages, kept: KeptJobs, tags: Option<PartTags>) -> TaskState
        requires { IsSound stages kept tags }
        ensures { let begun : SeenTask = record {
          stages = stages;
          causes = no_causes;
          outcome = None;
          kept = kept;
          tags = tags;
          upload = None;
        } in IsSettled begun result }
    {
        let mut task = TaskState {
            stages,
            causes: Causes::none(),
            outcome: None,
            kept,
            tags,
            upload: None,
        };
        task.settle();
        task
    }

    /// Settles the outcome once no act is ready and none is out.
    fn settle(&mut self)
        ensures { IsSettled self.old self.new }
    {
        if self.outcome.is_some() || goes_on(&self.stages, &self.causes) {
            return;
        }
        let whole = is_whole(&self.stages);
        let decided = is_decided(&self.stages);
        let ended = self.causes.end(whole, decided);
        mem::drop(mem::replace(&mut self.outcome, ended));
    }

    fn mark_given(&mut self, act: Act)
        requires { ready_by self.old ≡ Some act }
        ensures { IsGiven act self.old self.new }
    {
        let _work = self.stages.work();
        let before = self.stages.stage(act);
        self.stages.set(act, given_stage(before));
        unkeep(&mut self.kept, act);
    }

    fn mark_returned(&mut self, act: Act, came: FileCame)
        requires { HasAct self.old.stages act }
        ensures { IsReturned act came self.old self.new }
    {
        self.stages.set(act, file_stage(came));
        self.causes.file_came(file_cause(act, came));
    }

    fn mark_cancelled(&mut self, reason: Reason)
        ensures { IsCancelled reason self.old self.new }
    {
        self.causes.cancel(reason);
    }

    fn mark_taken(&mut self, op: Op, number: u32) -> Option<Job>
        ensures job { result ≡ job_at self.old.kept op number }
        ensures taken { IsTaken op number self.old self.new }
    {
        self.kept.take(op, number)
    }

    fn mark_came(&mut self, carried: Carried) -> Option<Part>
        requires act { HasAct self.old.stages (sent carried) }
        requires first { is_some carried.job.cell ≡ true → carried.job.had ≡ 0 }
        ensures part { result ≡ part_back self.old.stages.work (is_stopped_by self.old.causes) carried }
        ensures came { IsCame carried self.old self.new }
    {
        let work = self.stages.work();
        let stopped = self.causes.is_stopped();
        let report = report_of(&work, stopped, &carried);
        let id = report.id;
        let is_part = self.stages.is_piece_op(id.op);
        let act = Act::Send {
            op: id.op,
            number: id.number,
        };
        self.stages.set(act, report.stage);
        let Parted { job, ending } = take_apart(carried);
        let Gains {
            cause,
            tag: etag,
            upload,
        } = gains_of(&work, id, ending);
        self.causes
            .came(cause, report.is_cut, report.is_last, report.is_open);
        tag(&mut self.tags, is_part, id.number, etag);
        self.upload = named(upload, id, self.upload.take());
        keep(&mut self.kept, job, report.made, report.is_kept)
    }

    /// A task of which nothing happened. It takes all the memory of the task. The entity tags of parts are there until
    /// `etags` gives them away.
    pub fn make(alloc: Global, work: Work) -> Result<TaskState, OutOfMemory>
        requires few { work.count + 1 < 2 ^ 32 }
        requires attempts { work.attempts ≤ 10 }
        requires numbers { IsNumbered work }
        ensures stands { IfOk result (Stands work []) }
        ensures tags { IfOk result (λ task. is_some task.tags ≡ keeps_tags work) }
    {
        let tags = empty_tags(alloc, &work)?;
        let kept = KeptJobs::make(alloc, work)?;
        let stages = TaskStages::make(alloc, work)?;
        Ok(TaskState::of(stages, kept, tags))
    }

    /// The work of the task.
    pub fn work(&self) -> Work
        ensures by { result ≡ self.now.stages.work }
        ensures stands { (w : Work) (history : History) → Stands w history self.now → result ≡ w }
        ensures few { result.count + 1 < 2 ^ 32 }
    {
        self.stages.work()
    }

    /// The first act that is ready, None where none is.
    pub fn ready(&self) -> Option<Act>
        ensures by { result ≡ ready_by self.now }
        ensures stands { (w : Work) (history : History) → Stands w history self.now
            → result ≡ first_ready_in w history }
    {
        next_act(&self.stages, &self.causes)
    }

    /// How far an act is.
    pub fn stage(&self, act: Act) -> Stage
        ensures by { result ≡ stage_by self.now.stages act }
        ensures stands { (w : Work) (history : History) → Stands w history self.now → result ≡ stage w history act }
    {
        self.stages.stage(act)
    }

    /// The act that is ready was given. A job that was kept for it is kept no longer.
    pub fn gave(&mut self, act: Act)
        requires { ready_by self.old ≡ Some act }
        ensures stands { (w : Work) (history : History) → Stands w history self.old
            → Stands w (Gave act ∷ history) self.new }
        ensures marked { IsMarked act (given_stage (stage_by self.old.stages act)) self.old.stages self.new.stages }
        ensures out { is_out (stage_by self.new.stages act) ≡ true }
        ensures tags { self.new.tags ≡ self.old.tags }
    {
        self.mark_given(act);
        self.settle();
    }

    /// A job that was out came back. Its part goes back too, unless the job is kept to be given again.
    pub fn came(&mut self, carried: Carried) -> Option<Part>
        requires out { is_out (stage_by self.old.stages (sent carried)) ≡ true }
        requires first { is_some carried.job.cell ≡ true → carried.job.had ≡ 0 }
        ensures part { (w : Work) (history : History) → Stands w history self.old
            → result ≡ part_back w (is_stopped w history) carried }
        ensures stands { (w : Work) (history : History) → Stands w history self.old
            → Stands w (Came carried ∷ history) self.new }
        ensures marked { IsMarked (sent carried)
            (carried_stage self.old.stages.work (is_stopped_by self.old.causes) carried)
            self.old.stages self.new.stages }
        ensures tags { is_some self.new.tags ≡ is_some self.old.tags }
    {
        let part = self.mark_came(carried);
        self.settle();
        part
    }

    /// A call on files that was out came back.
    pub fn file_came(&mut self, act: Act, came: FileCame)
        requires { is_out (stage_by self.old.stages act) ≡ true }
        ensures stands { (w : Work) (history : History) → Stands w history self.old
            → Stands w (Returned act came ∷ history) self.new }
        ensures marked { IsMarked act (file_stage came) self.old.stages self.new.stages }
        ensures tags { self.new.tags ≡ self.old.tags }
    {
        self.mark_returned(act, came);
        self.settle();
    }

    /// The run was cancelled.
    pub fn cancel(&mut self, reason: Reason)
        ensures stands { (w : Work) (history : History) → Stands w history self.old
            → Stands w (Cancelled reason ∷ history) self.new }
        ensures stages { self.new.stages ≡ self.old.stages }
        ensures kept { self.new.kept ≡ self.old.kept }
        ensures tags { self.new.tags ≡ self.old.tags }
    {
        self.mark_cancelled(reason);
        self.settle();
    }

    /// How the task ended, None while an act is ready or out.
    pub fn outcome(&self) -> Option<&Outcome>
        ensures by { option_copied result ≡ self.now.outcome }
        ensures stands { (w : Work) (history : History) → Stands w history self.now
            → option_copied result ≡ outcome_of w history }
    {
        shown(&self.outcome)
    }

    /// How the task ended.
    pub fn end(self) -> Outcome
        requires { IsSome self.outcome }
        ensures { self.outcome ≡ Some result }
    {
        let TaskState {
            causes,
            outcome,
            kept,
            ..
        } = self;
        mem::drop(kept);
        mem::drop(causes);
        let Some(outcome) = outcome else {
            unreachable!()
        };
        outcome
    }

    /// The job that is kept under that op and number, without its cell and behind its attempts.
    pub fn kept(&mut self, op: Op, number: u32) -> Option<Job>
        ensures by { result ≡ job_at self.old.kept op number }
        ensures others { (other : Op) (at : ℕ) → job_at self.new.kept other at
            ≡ (if is_act (act_of.Send other at) (act_of.Send op number) then None else job_at self.old.kept other at) }
        ensures job { (w : Work) (history : History) → Stands w history self.old
            → result ≡ kept_job w history (act_of.Send op number) }
        ensures taken { is_some result ≡ true → (w : Work) (history : History) → Stands w history self.old
            → Stands w (Taken op number ∷ history) self.new }
        ensures none { is_some result ≡ false → (w : Work) (history : History) → Stands w history self.old
            → Stands w history self.new }
        ensures stages { self.new.stages ≡ self.old.stages }
        ensures tags { self.new.tags ≡ self.old.tags }
    {
        match self.mark_taken(op, number) {
            Some(job) => {
                self.settle();
                Some(job)
            }
            None => None,
        }
    }

    /// Whether something failed.
    pub fn failing(&self) -> bool
        ensures by { result ≡ self.now.causes.failing }
        ensures stands { (w : Work) (history : History) → Stands w history self.now
            → result ≡ is_some (first_failure w history) }
    {
        self.causes.is_failing()
    }

    /// The upload that the reply to its Create named.
    pub fn upload(&self) -> Option<UploadId>
        ensures by { result ≡ self.now.upload }
        ensures stands { (w : Work) (history : History) → Stands w history self.now → result ≡ upload_of history }
    {
        copy_of(&self.upload)
    }

    /// The entity tags of the parts that came, in order of number; they are given away once.
    pub fn etags(&mut self) -> Texts
        requires { IsSome self.old.tags }
        ensures tags { (w : Work) (history : History) → Stands w history self.old
            → result.items ≡ present (etags_of w history) }
        ensures stands { (w : Work) (history : History) → Stands w history self.old → Stands w history self.new }
        ensures stages { self.new.stages ≡ self.old.stages }
        ensures taken { self.new.tags ≡ None }
    {
        let _work = self.stages.work();
        take_tags(&mut self.tags)
    }
}
