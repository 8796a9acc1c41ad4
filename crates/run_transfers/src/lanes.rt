//! Jobs go to the lanes of a desk, and outcomes are taken from them.

ghost use Rattle.std.specs.Prelude.{◌≡◌, ◌+◌, ◌<◌, ◌≤◌, ◌++◌, ◌∷◌, [], length};
ghost use Rattle.bounded_executor.specs.Desk.{SameDesk, all_out, gives, lane_of};
ghost use Rattle.bounded_executor.specs.Exchange.{jobs_out};
ghost use Rattle.jobs.specs.Endings.{IsEnded};
ghost use Rattle.run_transfers.specs.Conducting.{Conducted, MeetsStranger};
ghost use Rattle.pending_jobs.specs.Pending.{out_of, pending_of, with_out};

use bounded_executor::Desk;
use jobs::{Carried, Job};
use lane_workers::LaneWorker;
use pending_jobs::PendingJobs;
use s3_outside::Wire;
use std::mem;
use std::sync::Wait;

/// A job goes to a lane that has room for it, and is pending there.
pub(crate) fn send<W: Wire + Send + Drop>(
    desk: &mut Desk<LaneWorker<W>>,
    pending: &mut PendingJobs,
    lane: u32,
    job: Job,
)
    requires lane { lane < length desk.old.lanes }
    requires room { jobs_out (lane_of desk.old lane) < desk.old.depth }
    requires pending_lane { lane < length pending.old.lanes }
    requires pending_room { length (out_of pending.old lane) < pending.old.depth }
    ensures gave { desk.new ≡ gives desk.old lane job }
    ensures pending { pending.new ≡ with_out pending.old lane (out_of pending.old lane ++ pending_of job ∷ []) }
{
    pending.push(lane, &job);
    let _ = desk.give(lane, job);
}

/// What is true of every job that comes back.
pub(crate) fn see_ended(carried: &Carried)
    ensures ended { IsEnded carried.now.ending carried.now.job.id.op carried.now.job.part carried.now.job.cell
        carried.now.tries }
    ensures few { length carried.now.tries ≤ 10 }
{
    let _marks = carried.tries.as_slice();
}

/// Takes back all jobs that are out, and drops them.
pub fn take_rest<R: Wait, W: Wire + Send + Drop>(rt: &R, desk: &mut Desk<LaneWorker<W>>)
    ensures none_out { all_out desk.new ≡ 0 }
    ensures stranger { (run : Conducted) → MeetsStranger run desk.old → MeetsStranger run desk.new }
    ensures same_desk { SameDesk desk.old desk.new }
{
    'jobs: while desk.out() > 0 {
        let (_, carried) = desk.take(rt);
        mem::drop(carried);
    }
}
