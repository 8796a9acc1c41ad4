//! One request of the planning.

ghost use Rattle.std.specs.Prelude.{◌≡◌, ◌+◌, ◌<◌, ◌≤◌, ◌++◌, ◌∷◌, [], IfOk, drop, length};
ghost use Rattle.bounded_executor.specs.Desk.{SameDesk, all_out, gives, lane_of, takes};
ghost use Rattle.bounded_executor.specs.Exchange.{jobs_out};
ghost use Rattle.job_terms.specs.Ops.{IsPlanning, op_of};
ghost use Rattle.jobs.specs.Endings.{IsReplyTo, SeenCarried};
ghost use Rattle.pending_jobs.specs.Pending.{out_of, pending_of, with_out};
ghost use Rattle.planning_questions.specs.Answers.{SaysBack, said_by};
ghost use Rattle.planning_questions.specs.Questions.{HasQuestions, AsksOnce, IsReadyToAsk, progress_of, question_job};

use crate::answer::said_by;
use crate::halt::Halt;
use bounded_executor::Desk;
use jobs::{Carried, Job, What};
use lane_workers::LaneWorker;
use pending_jobs::PendingJobs;
use s3_model::{Ask, Event, JobId, Journal, Op, Reply};
use s3_outside::Wire;
use std::mem;
use std::sync::Wait;

fn op_of(asked: &Ask) -> Op
    requires { IsPlanning asked.now }
    ensures { result ≡ op_of asked.now }
{
    match asked {
        Ask::Head { .. } => Op::Head,
        Ask::List { .. } => Op::List,
        Ask::Buckets => Op::Buckets,
        _ => unreachable!(),
    }
}

/// The job of the planning with that number.
fn question(number: u32, asked: Ask) -> Job
    requires { IsPlanning asked }
    ensures { result ≡ question_job number asked }
{
    let id = JobId {
        task: None,
        op: op_of(&asked),
        number,
    };
    Job {
        id,
        what: What::Plan(asked),
        part: None,
        hash: None,
        cell: None,
        had: 0,
    }
}

/// Gives a job to the first lane and notes it.
fn give<W: Wire + Send + Drop>(
    desk: &mut Desk<LaneWorker<W>>,
    pending: &mut PendingJobs,
    journal: &mut Journal,
    job: Job,
)
    requires lanes { 1 ≤ length desk.old.lanes }
    requires desk_room { jobs_out (lane_of desk.old 0) < desk.old.depth }
    requires pending_lanes { 1 ≤ length pending.old.lanes }
    requires pending_room { length (out_of pending.old 0) < pending.old.depth }
    requires room { 2 ≤ journal.old.spare }
    ensures gave { desk.new ≡ gives desk.old 0 job }
    ensures out { all_out desk.new ≡ all_out desk.old + 1 }
    ensures pending { pending.new ≡ with_out pending.old 0 (out_of pending.old 0 ++ pending_of job ∷ []) }
    ensures noted { journal.new.items ≡ journal.old.items ++ Event.Given job.id 0 ∷ [] }
    ensures room { 1 ≤ journal.new.spare }
{
    journal.push(Event::Given {
        job: job.id,
        lane: 0,
    });
    pending.push(0, &job);
    let _ = desk.give(0, job);
}

/// Notes that a job came back, and what its ending says.
fn note(journal: &mut Journal, carried: Carried) -> Result<Reply, Halt>
    requires { 1 ≤ journal.old.spare }
    ensures noted { journal.new.items ≡ journal.old.items ++ Event.Came carried.job.id 0 carried.tries ∷ [] }
    ensures answer { result ≡ said_by carried.job.id.op carried.ending }
    ensures reply { IfOk result (IsReplyTo carried.job.id.op) }
{
    let Carried { job, tries, ending } = carried;
    let id = job.id;
    mem::drop(job);
    journal.push(Event::Came {
        job: id,
        lane: 0,
        tries,
    });
    said_by(id.op, ending)
}

/// Takes the job of the first lane back, the only one out, and notes it: what it says, where it can be that job.
fn take<R: Wait, W: Wire + Send + Drop>(
    rt: &R,
    desk: &mut Desk<LaneWorker<W>>,
    pending: &mut PendingJobs,
    journal: &mut Journal,
) -> Result<Reply, Halt>
    requires lanes { 1 ≤ length desk.old.lanes }
    requires here { jobs_out (lane_of desk.old 0) ≡ 1 }
    requires alone { all_out desk.old ≡ 1 }
    requires pending_lanes { 1 ≤ length pending.old.lanes }
    requires room { 1 ≤ journal.old.spare }
    ensures heard { (carried : SeenCarried) × (desk.new ≡ takes desk.old 0 carried)
        × (journal.new.items ≡ journal.old.items ++ Event.Came carried.job.id 0 carried.tries ∷ [])
        × SaysBack (out_of pending.old 0) carried result }
    ensures none_out { all_out desk.new ≡ 0 }
    ensures pending { pending.new ≡ with_out pending.old 0 (drop 1 (out_of pending.old 0)) }
{
    let (_, carried) = desk.take(rt);
    let is_own = pending.is_oldest(0, &carried);
    pending.pop(0);
    let answer = note(journal, carried);
    if is_own {
        answer
    } else {
        mem::drop(answer);
        Err(Halt::Stranger)
    }
}

/// Asks a service one thing, as the planning job of that number in the first lane, and hears what became of it; then
/// the number is the next. The lane makes the attempts. The journal has the job as it is given and as it comes.
///
/// # Errors
///
/// `Answer` where the service refused the request, or nobody can know what it came to, by the last attempt; `Memory`
/// where memory ran out, here before anything was done, or in the lane; `Stranger` where what came back cannot be the
/// job, which no lane does.
pub fn ask<R: Wait, W: Wire + Send + Drop>(
    rt: &R,
    desk: &mut Desk<LaneWorker<W>>,
    pending: &mut PendingJobs,
    journal: &mut Journal,
    number: &mut u32,
    asked: Ask,
) -> Result<Reply, Halt>
    requires planning { IsPlanning asked }
    requires idle { IsReadyToAsk desk.old pending.old }
    requires number { number.old < 4_294_967_295 }
    ensures asked { HasQuestions number.old number.new (progress_of desk.old journal.old.items)
        (progress_of desk.new journal.new.items) (λ questions. AsksOnce number.old asked questions result) }
    ensures reply { IfOk result (IsReplyTo (op_of asked)) }
    ensures few { number.new ≤ number.old + 1 }
    ensures idle { IsReadyToAsk desk.new pending.new }
    ensures same_desk { SameDesk desk.old desk.new }
    ensures pending { pending.new ≡ pending.old }
{
    journal.reserve(2)?;
    let job = question(*number, asked);
    *number += 1;
    give(desk, pending, journal, job);
    take(rt, desk, pending, journal)
}
