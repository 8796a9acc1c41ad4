//! What lanes hand back.

ghost use Rattle.std.specs.Prelude.{◌≡◌};

use crate::ending::Ending;
use crate::job::Job;
use s3_model::{JobId, Tries};
use std::marker::Model;

/// A job that a lane carried, with the marks of its attempts and its ending.
///
/// What was gained is a reply to its request, and of a Get as many bytes stand in the part as the reply says. The last
/// mark is that of the ending, and no other is a success; a job that was cancelled has no mark, and a cell.
#[derive(Drop)]
pub struct Carried {
    pub job: Job,
    pub tries: Tries,
    pub ending: Ending,
}

impl Model for Carried {
    ghost use Rattle.jobs.specs.Endings.{IsEnded, SeenCarried};

    ghost Value = { SeenCarried };

    ghost view = { λ c. record { job = c.job; tries = c.tries; ending = c.ending } };

    ghost invariant = { λ c. IsEnded c.ending c.job.id.op c.job.part c.job.cell c.tries };
}

impl Carried {
    /// The id of the job.
    pub fn id(&self) -> JobId
        ensures { result ≡ self.now.job.id }
    {
        self.job.id
    }
}
