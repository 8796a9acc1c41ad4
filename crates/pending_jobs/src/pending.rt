//! What is kept of a job while it is out.

ghost use Rattle.std.specs.Prelude.{◌≡◌, ◌↔◌, true, option_map};
ghost use Rattle.pending_jobs.specs.Pending.{IsBack, KeepsRoom, pending_of};

use jobs::{Carried, Job};
use s3_model::{JobId, Part};

/// A job that is out in a lane: what tells, when a job comes back, whether it can be that one.
///
/// The executor says that a lane's outcomes come in the order of its jobs, and not, before its thread has ended, what
/// they are; so whoever takes one back asks.
#[derive(Clone, Copy)]
pub struct Pending {
    pub id: JobId,
    /// Whether it may be cancelled by a cell.
    pub has_cell: bool,
    /// How many bytes its part has room for, where it has one.
    pub room: Option<u64>,
    /// How many attempts were made where it was given before.
    pub had: u32,
}

fn room_of(part: &Option<Part>) -> Option<u64>
    ensures { result ≡ option_map (λ p. p.bytes.room) part.now }
{
    match part {
        Some(part) => Some(part.bytes.room()),
        None => None,
    }
}

/// Whether a part came back where one was given, with at least its room.
fn keeps_room(given: Option<u64>, now: &Option<Part>) -> bool
    ensures { (result ≡ true) ↔ KeepsRoom given now.now }
{
    match (given, now) {
        (None, None) => true,
        (Some(room), Some(part)) => room <= part.bytes.room(),
        (None, Some(_)) | (Some(_), None) => false,
    }
}

impl Pending {
    /// What is kept of this job.
    pub fn of(job: &Job) -> Pending
        ensures { result ≡ pending_of job.now }
    {
        Pending {
            id: job.id,
            has_cell: job.cell.is_some(),
            room: room_of(&job.part),
            had: job.had,
        }
    }

    /// Whether the job that came back can be this one.
    pub fn is_back(&self, carried: &Carried) -> bool
        ensures { (result ≡ true) ↔ IsBack self.now carried.now.job }
    {
        let job = &carried.job;
        job.id == self.id
            && job.cell.is_some() == self.has_cell
            && keeps_room(self.room, &job.part)
            && job.had == self.had
    }
}
