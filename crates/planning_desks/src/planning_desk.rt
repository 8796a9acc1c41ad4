//! A planning between the opening of its lanes and their end.

ghost use Rattle.std.specs.Prelude.{◌≡◌, ◌≤◌, ◌+◌, [], IfOk, OnErr, OnOk, drop, length, map, replicate, take};
ghost use Rattle.std.specs.Prelude.{vec_capacity, vec_len};
ghost use Rattle.s3_model.specs.Validity.{IsWithin};
ghost use Rattle.lane_workers.specs.LaneWorkers.{carrier_with, lane_over};
ghost use Rattle.planning_questions.specs.Questions.{IsReadyToAsk, progress_of};
ghost use Rattle.planning_desks.specs.PlanningDesks.{ComesBack, fresh};

use bounded_executor::{Desk, close_desk, open_desk};
use lane_workers::{LaneWorker, give_back, make_lanes};
use pending_jobs::PendingJobs;
use s3_model::{Endpoint, Journal, Keys, List, OutOfMemory};
use s3_outside::Wire;
use std::alloc::Global;
use std::sync::Wait;
use std::thread::Threads;

/// A planning under way: the desk with its lanes, the jobs that are out, the journal, and the number of the next
/// question. Only [`PlanningDesk::close`] ends it.
pub struct PlanningDesk<W: Wire + Send + Drop> {
    pub desk: Desk<LaneWorker<W>>,
    /// Where the lanes stand again once the desk is closed: empty, with room for all of them.
    pub seats: Vec<LaneWorker<W>>,
    pub pending: PendingJobs,
    pub journal: Journal,
    pub number: u32,
}

impl<W: Wire + Send + Drop + 'static> PlanningDesk<W> {
    /// The first `lanes` wires become the lanes of a desk, in their order, each with copies of the endpoint and the
    /// keys, for jobs of at most `attempts` attempts each, from 1 to 10. There are 1 to 65,535 lanes, and each holds at
    /// most `depth` jobs, 1 to 64. The other wires stay, and the list keeps the room for all. Nothing is out, the
    /// journal is empty, and the first question is number 0.
    ///
    /// # Errors
    ///
    /// `OutOfMemory`, the only one: then every wire stands in its place again.
    pub fn open<R: Threads + Wait + Clone + Send + Drop + 'static>(
        rt: &R,
        alloc: Global,
        wires: &mut Vec<W>,
        lanes: u32,
        depth: u32,
        endpoint: &Endpoint,
        keys: &Keys,
        attempts: u32,
    ) -> Result<PlanningDesk<W>, OutOfMemory>
        requires lanes { (1 ≤ lanes) × (lanes ≤ 65535) }
        requires depth { (1 ≤ depth) × (depth ≤ 64) }
        requires count { lanes ≤ vec_len wires.old }
        requires attempts { IsWithin 1 attempts 10 }
        ensures lanes { IfOk result (λ planned. planned.desk.workers
            ≡ map (lane_over (carrier_with endpoint.now keys.now attempts)) (take lanes wires.old.items)) }
        ensures fresh { IfOk result (λ planned. progress_of planned.desk planned.journal.items ≡ fresh lanes) }
        ensures depth { IfOk result (λ planned. planned.desk.depth ≡ depth) }
        ensures pending { IfOk result (λ planned. planned.pending
            ≡ record { depth = depth; lanes = replicate lanes [] }) }
        ensures number { IfOk result (λ planned. planned.number ≡ 0) }
        ensures idle { IfOk result (λ planned. IsReadyToAsk planned.desk planned.pending) }
        ensures none { IfOk result (λ planned. planned.seats.items ≡ []) }
        ensures seats { IfOk result (λ planned. length planned.desk.workers ≤ vec_capacity planned.seats) }
        ensures others { OnOk result (wires.new.items ≡ drop lanes wires.old.items) }
        ensures room { OnOk result (vec_len wires.old ≤ vec_capacity wires.new) }
        ensures err { OnErr result (wires.new.items ≡ wires.old.items) }
    {
        let pending = PendingJobs::make(alloc, lanes, depth)?;
        let mut seats = make_lanes(alloc, wires, lanes, endpoint, keys, attempts)?;
        match open_desk(rt, alloc, &mut seats, depth) {
            Ok(desk) => Ok(PlanningDesk {
                desk,
                seats,
                pending,
                journal: List::make(alloc),
                number: 0,
            }),
            Err(_) => {
                give_back(seats, wires);
                Err(OutOfMemory)
            }
        }
    }

    /// Ends the lanes, with no job out: their wires stand in front again, in their order, as they are by having carried
    /// just what was given at the desk. Gives the journal.
    pub fn close<R: Threads>(self, rt: &R, alloc: Global, wires: &mut Vec<W>) -> Journal
        requires idle { IsReadyToAsk self.desk self.pending }
        requires none { self.seats.items ≡ [] }
        requires seats { length self.desk.workers ≤ vec_capacity self.seats }
        requires room { length self.desk.workers + vec_len wires.old ≤ vec_capacity wires.old }
        ensures back { ComesBack W.seen W.faults self.desk wires.old.items wires.new.items }
        ensures journal { result ≡ self.journal }
    {
        let PlanningDesk {
            desk,
            mut seats,
            pending: _,
            journal,
            number: _,
        } = self;
        close_desk(rt, alloc, desk, &mut seats);
        give_back(seats, wires);
        journal
    }
}
