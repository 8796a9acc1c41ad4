//! A run of tasks over the lanes of a desk.

ghost use Rattle.std.specs.Prelude.{◌≡◌, ◌≢◌, ◌≤◌, ◌∷◌, [], ℕ, IfErr, IfNone, IfOk, IfSome, List, Some, length};
ghost use Rattle.bounded_executor.specs.Desk.{SameDesk, all_out};
ghost use Rattle.manager_core.specs.Ended.{AreOutcomes};
ghost use Rattle.manager_core.specs.Running.{CanRun, IsSharedOf, lane_depth};
ghost use Rattle.manager_moves.specs.Runs.{Shared};
ghost use Rattle.run_traces.specs.Traces.{Called, Stopped, events_of, journal_of};
ghost use Rattle.manager_core.specs.declared.due.Due.TheVariants as due;
ghost use Rattle.run_transfers.specs.Conducting.{BeginsConducting, Conducted, Conducts, IsAt, IsCallAt, IsConducting};
ghost use Rattle.run_transfers.specs.Conducting.{IsFree, StaysConducted, Stops, conductor, further};
ghost use Rattle.held_parts.specs.Held.{with_more};
ghost use Rattle.local_files.specs.Calls.{CallStep};
ghost use Rattle.manager_core.specs.Answers.{FitsInPart, read_part};
ghost use Rattle.manager_core.specs.Due.{call_due};
ghost use Rattle.task_acts.specs.declared.acts.Act.{Act as OneAct};
ghost use Rattle.s3_outside.specs.declared.files.FileNote.{FileNote};
ghost use Rattle.std.specs.Option.{option_map};
ghost use Rattle.s3_model.specs.Validity.{IsValidConfig, IsValidLimits};

use crate::cells::cancel_failing;
use crate::moves::{give, take};
use crate::stop::Stop;
use bounded_executor::Desk;
use lane_workers::LaneWorker;
use manager_core::Manager;
use manager_moves::Move;
use pending_jobs::PendingJobs;
use s3_model::{Config, Journal, Limits, Outcomes, Plan, Reason};
use s3_outside::Wire;
use std::alloc::Global;
use std::marker::Model;
use std::mem;
use std::sync::Wait;
use task_acts::FileCame;

/// A run of the tasks of a plan over the lanes of a desk, between two moves: the manager that names its moves, and the
/// jobs that are pending in each lane. The desk is lent to each call.
#[derive(Drop)]
pub struct Conductor {
    manager: Manager,
    pending: PendingJobs,
}

impl Model for Conductor {
    ghost use Rattle.run_transfers.specs.Conducting.{SeenConductor, conductor};

    ghost Value = { SeenConductor };

    ghost view = { λ c. conductor c.manager c.pending };
}

/// The oldest job of some lane comes back. Where its task fails, the other jobs of the task hear of it, as far as memory
/// suffices. Where what came is a stranger, the run stops there.
fn wait<R: Wait, W: Wire + Send + Drop>(
    rt: &R,
    manager: &mut Manager,
    pending: &mut PendingJobs,
    desk: &mut Desk<LaneWorker<W>>,
) -> Option<Stop>
    requires { IsAt Move.Wait (conductor manager.old pending.old) desk.old }
    ensures free { IfNone result (IsFree (conductor manager.new pending.new) desk.new) }
    ensures goes_on { IfNone result (Conducts (conductor manager.old pending.old) desk.old
        (conductor manager.new pending.new) desk.new) }
    ensures stops { IfSome result (λ stop. Stops stop (conductor manager.old pending.old) desk.old
        (conductor manager.new pending.new) desk.new) }
    ensures same_desk { SameDesk desk.old desk.new }
{
    let Some(id) = take(rt, manager, pending, desk) else {
        return Some(Stop::Stranger);
    };
    if let Some(task) = id.task {
        let _ = cancel_failing(manager, task);
    }
    None
}

/// Does that move, and answers where the run stops, if it does.
fn answer<R: Wait, W: Wire + Send + Drop>(
    rt: &R,
    manager: &mut Manager,
    pending: &mut PendingJobs,
    desk: &mut Desk<LaneWorker<W>>,
    next: Move,
) -> Option<Stop>
    requires { IsAt next (conductor manager.old pending.old) desk.old }
    ensures free { IfNone result (IsFree (conductor manager.new pending.new) desk.new) }
    ensures goes_on { IfNone result (Conducts (conductor manager.old pending.old) desk.old
        (conductor manager.new pending.new) desk.new) }
    ensures stops { IfSome result (λ stop. Stops stop (conductor manager.old pending.old) desk.old
        (conductor manager.new pending.new) desk.new) }
    ensures same_desk { SameDesk desk.old desk.new }
{
    match next {
        Move::Make(task) => manager.made(task),
        Move::Give {
            task,
            op,
            number,
            lane,
        } => give(manager, pending, desk, task, op, number, lane),
        Move::Line(_) => manager.lined(),
        Move::Wait => return wait(rt, manager, pending, desk),
        Move::End => return Some(Stop::End),
        _ => return Some(Stop::Call(next)),
    }
    None
}

/// How many jobs a lane takes: the queue is shared out to the lanes, at least one job and at most 64 to each.
fn depth_of(queue: u32, lanes: u32) -> u32
    requires { 1 ≤ lanes }
    ensures { result ≡ lane_depth queue lanes }
{
    (queue / lanes).max(1).min(64)
}

impl Conductor {
    /// A run of the tasks of a plan over the lanes of a desk, behind a planning with that journal, of which nothing was
    /// done. It takes all memory that the run needs but that of its tasks while they are made and have not ended. After
    /// want of memory plan and journal are handed back.
    pub fn make<W: Wire + Send + Drop>(
        alloc: Global,
        plan: Plan,
        planning: Journal,
        config: &Config,
        limits: &Limits,
        desk: &Desk<LaneWorker<W>>,
    ) -> Result<Conductor, (Plan, Journal)>
        requires config { IsValidConfig config.now }
        requires limits { IsValidLimits limits.now }
        requires plan { CanRun limits.now plan.tasks.items }
        requires some { 1 ≤ length desk.now.lanes }
        requires few { length desk.now.lanes ≤ 65535 }
        requires depth { desk.now.depth ≡ lane_depth config.now.queue (length desk.now.lanes) }
        requires idle { all_out desk.now ≡ 0 }
        ensures begins { IfOk result (λ c. (shared : Shared)
            × IsSharedOf config.now limits.now (length desk.now.lanes) plan.tasks.items shared
            × BeginsConducting (record {
              plan = plan;
              planning = planning.items;
              config = config.now;
              limits = limits.now;
            }) shared c desk.now) }
        ensures free { IfOk result (λ c. c.manager.due ≡ due.Free) }
        ensures back { IfErr result (λ back. (back.0 ≡ plan) × (back.1.items ≡ planning.items)) }
    {
        let lanes = desk.lanes();
        let Ok(pending) = PendingJobs::make(alloc, lanes, depth_of(config.queue, lanes)) else {
            return Err((plan, planning));
        };
        match Manager::make(alloc, plan, planning, config, limits, lanes) {
            Ok(manager) => Ok(Conductor { manager, pending }),
            Err(back) => {
                mem::drop(pending);
                Err(back)
            }
        }
    }

    /// Does the next move, and answers where the run stops, if it does.
    fn advance<R: Wait, W: Wire + Send + Drop>(
        &mut self,
        rt: &R,
        desk: &mut Desk<LaneWorker<W>>,
    ) -> Option<Stop>
        requires { IsFree self.old desk.old }
        ensures free { IfNone result (IsFree self.new desk.new) }
        ensures goes_on { IfNone result (Conducts self.old desk.old self.new desk.new) }
        ensures stops { IfSome result (λ stop. Stops stop self.old desk.old self.new desk.new) }
        ensures same_desk { SameDesk desk.old desk.new }
    {
        let next = self.manager.next();
        answer(rt, &mut self.manager, &mut self.pending, desk, next)
    }

    /// Does the moves of the run, one after the other, up to its end, or to a call on files, which is to be made before
    /// it goes on; or until a lane brings back what cannot be its oldest pending job, which no lane does.
    pub fn go_on<R: Wait, W: Wire + Send + Drop>(
        &mut self,
        rt: &R,
        desk: &mut Desk<LaneWorker<W>>,
    ) -> Stop
        requires { IsFree self.old desk.old }
        ensures stops { Stops result self.old desk.old self.new desk.new }
        ensures same_desk { SameDesk desk.old desk.new }
    {
        for _ in rt.forever() {
            if let Some(stop) = self.advance(rt, desk) {
                return stop;
            }
        }
        unreachable!()
    }

    /// Adds bytes to the part of the piece whose read is to be answered.
    pub fn fill<W: Wire + Send + Drop>(&mut self, desk: &Desk<LaneWorker<W>>, piece: &[u8])
        requires at { (task number : ℕ) × IsAt (Move.Read task number) self.old desk.now }
        requires fits { FitsInPart piece.now (read_part self.old.manager) }
        ensures due { self.new.manager.due ≡ self.old.manager.due }
        ensures stays { StaysConducted self.old self.new desk.now }
        ensures grown { read_part self.new.manager ≡ option_map (with_more piece.now) (read_part self.old.manager) }
    {
        self.manager.fill(piece);
    }

    /// The call on files was made that is to be answered, and came back so.
    pub fn called<W: Wire + Send + Drop>(&mut self, desk: &Desk<LaneWorker<W>>, came: FileCame)
        requires { IsCallAt came self.old desk.now }
        ensures free { IsFree self.new desk.now }
        ensures called { (run : Conducted) (task : ℕ) (of_act : OneAct) (steps : List CallStep) (notes : List FileNote)
            → IsConducting run self.old desk.now → call_due self.old.manager.due ≡ Some (record { task = task; act = of_act })
            → IsConducting (further (Called task of_act came steps notes ∷ []) run) self.new desk.now }
    {
        self.manager.file_came(came);
    }

    /// The run is cancelled. Tasks that are made and have not ended hear of it, unless an earlier cancel came.
    pub fn cancel_all<W: Wire + Send + Drop>(&mut self, desk: &Desk<LaneWorker<W>>, reason: Reason)
        requires free { IsFree self.old desk.now }
        requires reason { reason ≢ Reason.TaskFailed }
        ensures free { IsFree self.new desk.now }
        ensures stopped { (run : Conducted) → IsConducting run self.old desk.now
            → IsConducting (further (Stopped reason ∷ []) run) self.new desk.now }
    {
        self.manager.cancel_all(reason);
    }

    /// The plan, how each of its tasks ended, and the journal, once the run came to its end.
    pub fn finish<W: Wire + Send + Drop>(
        self,
        desk: &Desk<LaneWorker<W>>,
    ) -> (Plan, Outcomes, Journal)
        requires { IsAt Move.End self desk.now }
        ensures plan { result.0 ≡ self.manager.plan }
        ensures outcomes { (run : Conducted) → IsConducting run self desk.now
            → AreOutcomes run.shared (events_of run.trace) result.1.items }
        ensures journal { (run : Conducted) → IsConducting run self desk.now → result.2.items ≡ journal_of run.trace }
    {
        let Conductor { manager, pending } = self;
        mem::drop(pending);
        manager.finish()
    }
}
