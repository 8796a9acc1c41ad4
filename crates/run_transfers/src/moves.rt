//! The moves of a run, each done as the manager names it.

ghost use Rattle.std.specs.Prelude.{IfNone, IfSome};
ghost use Rattle.bounded_executor.specs.Desk.{SameDesk};
ghost use Rattle.manager_core.specs.Shown.{HasTaskAt};
ghost use Rattle.run_transfers.specs.Conducting.{Conducts, EndsStrangely, IsAt, IsFree, conductor};

use crate::lanes::{see_ended, send};
use bounded_executor::Desk;
use lane_workers::LaneWorker;
use manager_core::Manager;
use manager_moves::Move;
use pending_jobs::PendingJobs;
use s3_model::{JobId, Op};
use s3_outside::Wire;
use std::mem;
use std::sync::Wait;

/// The next job goes to its lane.
pub(crate) fn give<W: Wire + Send + Drop>(
    manager: &mut Manager,
    pending: &mut PendingJobs,
    desk: &mut Desk<LaneWorker<W>>,
    task: u32,
    op: Op,
    number: u32,
    lane: u32,
)
    requires { IsAt (Move.Give task op number lane) (conductor manager.old pending.old) desk.old }
    ensures free { IsFree (conductor manager.new pending.new) desk.new }
    ensures goes_on { Conducts (conductor manager.old pending.old) desk.old (conductor manager.new pending.new)
        desk.new }
    ensures same_desk { SameDesk desk.old desk.new }
{
    let job = manager.job(task, op, number);
    send(desk, pending, lane, job);
    manager.gave(lane);
}

/// The oldest job of some lane comes back, and waits until one does. None where what came cannot be that job: then the
/// run can't go on.
pub(crate) fn take<R: Wait, W: Wire + Send + Drop>(
    rt: &R,
    manager: &mut Manager,
    pending: &mut PendingJobs,
    desk: &mut Desk<LaneWorker<W>>,
) -> Option<JobId>
    requires { IsAt Move.Wait (conductor manager.old pending.old) desk.old }
    ensures free { IfSome result (λ id. IsFree (conductor manager.new pending.new) desk.new) }
    ensures goes_on { IfSome result (λ id. Conducts (conductor manager.old pending.old) desk.old
        (conductor manager.new pending.new) desk.new) }
    ensures task { IfSome result (λ id. IfSome id.task (λ n. HasTaskAt n manager.new)) }
    ensures same_desk { SameDesk desk.old desk.new }
    ensures stranger { IfNone result (EndsStrangely (conductor manager.old pending.old) desk.old desk.new) }
{
    let (lane, carried) = desk.take(rt);
    if !pending.is_oldest(lane, &carried) {
        mem::drop(carried);
        return None;
    }
    pending.pop(lane);
    see_ended(&carried);
    let id = carried.id();
    manager.came(lane, carried);
    Some(id)
}
