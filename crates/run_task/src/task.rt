//! The one task of a run.

ghost use Rattle.std.specs.Prelude.{◌≡◌, ◌≤◌, [], ◌∷◌, None, IfOk, map, string_bytes};
ghost use Rattle.std.specs.Arc.{arc_value};
ghost use Rattle.s3_model.specs.Validity.{IsWithin};
ghost use Rattle.result_lines.specs.Tasks.{HasShownCause, HasSource};
ghost use Rattle.job_terms.specs.Gains.{Gains};
ghost use Rattle.upload_promise.specs.Sources.{LooksAt};
ghost use Rattle.run_report.specs.Texts.{HasTexts, IsTextOf, err_lines, mode_in, out_lines};
ghost use Rattle.run_task.specs.Rooms.{HasRoom};
ghost use Rattle.run_task.specs.Uploaded.{HasOneOutcome, HasUploaded, IsUpload, MayUpload, MayWant, path_of};

use lane_jobs::Carrier;
use run_report::{Executed, Fatal, Run, end_early, list_of, task_text};
use run_start::Service;
use s3_model::{Journal, Mode, OutOfMemory, Outcome, Outcomes, Place, Plan, Task, Tasks, Warnings};
use s3_outside::{Files, Wire};
use small_uploads::upload;
use std::alloc::Global;
use std::mem;
use std::sync::Arc;

/// The lists that a run fills.
#[derive(Drop)]
pub(crate) struct Lists {
    pub tasks: Tasks,
    pub outcomes: Outcomes,
    pub journal: Journal,
}

/// Room for a task, for its outcome and for the two events of its job.
fn make_lists(alloc: Global) -> Result<Lists, OutOfMemory>
    ensures { IfOk result HasRoom }
{
    let tasks = list_of(alloc, 1)?;
    let outcomes = list_of(alloc, 1)?;
    let journal = list_of(alloc, 2)?;
    Ok(Lists {
        tasks,
        outcomes,
        journal,
    })
}

fn source_of(task: &Task) -> &str
    requires { IsUpload task.now }
    ensures { result.now ≡ path_of task.now }
{
    let Some(Place::File { path }) = &task.source else {
        unreachable!()
    };
    path.as_str()
}

/// All that a task wants of memory before it begins.
#[derive(Drop)]
pub(crate) struct Prepared {
    pub lists: Lists,
    pub carrier: Carrier,
    pub shared: Arc<Task, Global>,
}

/// The task as its jobs share it, and the lists that its run fills.
fn share_with_lists(alloc: Global, task: &Task) -> Result<(Arc<Task, Global>, Lists), OutOfMemory>
    ensures shared { IfOk result (λ made. arc_value made.0 ≡ task.now) }
    ensures room { IfOk result (λ made. HasRoom made.1) }
{
    let shared = task.share(alloc)?;
    match make_lists(alloc) {
        Ok(lists) => Ok((shared, lists)),
        Err(fault) => {
            mem::drop(shared);
            Err(fault)
        }
    }
}

/// What a task wants of memory before it begins, behind its carrier.
fn prepare_behind(alloc: Global, carrier: Carrier, task: &Task) -> Result<Prepared, OutOfMemory>
    ensures carrier { IfOk result (λ made. made.carrier ≡ carrier) }
    ensures shared { IfOk result (λ made. arc_value made.shared ≡ task.now) }
    ensures room { IfOk result (λ made. HasRoom made.lists) }
{
    match share_with_lists(alloc, task) {
        Ok((shared, lists)) => Ok(Prepared {
            lists,
            carrier,
            shared,
        }),
        Err(fault) => {
            mem::drop(carrier);
            Err(fault)
        }
    }
}

/// Makes all that a task wants of memory before it begins.
fn prepare(alloc: Global, service: Service, task: &Task) -> Result<Prepared, OutOfMemory>
    requires { IsWithin 1 service.attempts 10 }
    ensures endpoint { IfOk result (λ made. made.carrier.endpoint ≡ service.endpoint) }
    ensures keys { IfOk result (λ made. made.carrier.keys ≡ service.keys) }
    ensures attempts { IfOk result (λ made. made.carrier.attempts ≡ service.attempts) }
    ensures shared { IfOk result (λ made. arc_value made.shared ≡ task.now) }
    ensures room { IfOk result (λ made. HasRoom made.lists) }
{
    let carrier = Carrier::make(alloc, service.endpoint, service.keys, service.attempts)?;
    prepare_behind(alloc, carrier, task)
}

/// The run of a task that came to this outcome.
fn run_of(alloc: Global, lists: Lists, task: Task, outcome: Outcome) -> Run
    requires no_task { lists.tasks.items ≡ [] }
    requires for_task { 1 ≤ lists.tasks.spare }
    requires no_outcome { lists.outcomes.items ≡ [] }
    requires for_outcome { 1 ≤ lists.outcomes.spare }
    ensures status { result.status ≡ 0 }
    ensures tasks { result.plan.tasks.items ≡ task ∷ [] }
    ensures skips { result.plan.warnings.items ≡ [] }
    ensures outcomes { result.outcomes.items ≡ outcome ∷ [] }
    ensures journal { result.journal ≡ lists.journal }
    ensures warnings { result.warnings.items ≡ [] }
    ensures fatal { result.fatal ≡ None }
{
    let Lists {
        mut tasks,
        mut outcomes,
        journal,
    } = lists;
    tasks.push(task);
    outcomes.push(outcome);
    let warnings = Warnings::make(alloc);
    Run {
        status: 0,
        plan: Plan { tasks, warnings },
        outcomes,
        journal,
        warnings: Warnings::make(alloc),
        fatal: None,
    }
}

/// Does the task of a run.
fn do_task<F: Files, W: Wire>(
    alloc: Global,
    mode: Mode,
    prepared: Prepared,
    task: Task,
    files: &mut F,
    wire: &mut W,
) -> Executed
    requires room { HasRoom prepared.lists }
    requires upload { IsUpload task }
    requires shared { arc_value prepared.shared ≡ task }
    requires source { HasSource task }
    ensures text { HasTexts (out_lines mode result.run.plan.tasks.items result.run.outcomes.items)
        (err_lines mode result.run.plan.tasks.items result.run.outcomes.items ([] ∷ [])) result.text }
    ensures fatal { result.run.fatal ≡ None }
    ensures tasks { result.run.plan.tasks.items ≡ task ∷ [] }
    ensures went { Gains (W.seen wire.old) (W.seen wire.new) (HasUploaded prepared.carrier.endpoint
        prepared.carrier.keys prepared.carrier.attempts task (F.seen files.new) (F.faults files.old)
        (F.faults files.new) result.run) }
    ensures outcome { HasOneOutcome (F.faults files.old) (F.faults files.new) result.run }
    ensures warnings { result.run.warnings.items ≡ [] }
    ensures skips { result.run.plan.warnings.items ≡ [] }
    ensures files { LooksAt (path_of task) (F.seen files.old) (F.seen files.new) }
    ensures files_later { F.faults files.old ≤ F.faults files.new }
    ensures wire_later { W.faults wire.old ≤ W.faults wire.new }
{
    let Prepared {
        mut lists,
        mut carrier,
        shared,
    } = prepared;
    let outcome = upload(
        alloc,
        files,
        wire,
        &mut carrier,
        shared,
        source_of(&task),
        task.size,
        &mut lists.journal,
    );
    mem::drop(carrier);
    let own = Warnings::make(alloc);
    let text = task_text(alloc, &task, &outcome, &own, mode);
    let run = run_of(alloc, lists, task, outcome);
    Executed { run, text }
}

/// Uploads the file of a command.
pub fn execute_upload<W: Wire, F: Files>(
    alloc: Global,
    words: &[String],
    mode: Mode,
    service: Service,
    task: Task,
    files: &mut F,
    wire: &mut W,
) -> Executed
    requires upload { IsUpload task }
    requires source { HasSource task }
    requires mode { mode ≡ mode_in (map string_bytes words.now) }
    requires attempts { IsWithin 1 service.attempts 10 }
    ensures went { Gains (W.seen wire.old) (W.seen wire.new) (MayUpload service.endpoint service.keys service.attempts
        task (F.seen files.new) (F.faults files.old) (F.faults files.new) result.run) }
    ensures text { IsTextOf (map string_bytes words.now) [] result.run result.text }
    ensures does { MayWant task (F.faults files.old) (F.faults files.new) result.run }
    ensures files { LooksAt (path_of task) (F.seen files.old) (F.seen files.new) }
    ensures files_later { F.faults files.old ≤ F.faults files.new }
    ensures wire_later { W.faults wire.old ≤ W.faults wire.new }
{
    match prepare(alloc, service, &task) {
        Ok(prepared) => do_task(alloc, mode, prepared, task, files, wire),
        Err(_) => {
            mem::drop(task);
            end_early(alloc, words, Fatal::Memory)
        }
    }
}
