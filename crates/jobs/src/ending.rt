//! How a job ends.

use s3_model::{Reason, Reply, Text, Why};

/// What came of a job.
#[derive(Drop)]
pub enum Ending {
    /// Its last attempt was a success.
    Gained(Reply),
    /// Its last attempt was refused, by an answer with this status.
    Refused {
        status: u16,
        code: Text,
        message: Text,
    },
    /// Its last attempt left it open what the request did.
    Uncertain(Why),
    /// It made no attempt, since its cell gave this reason.
    Cancelled(Reason),
    /// Memory ran out before its first attempt, or between two.
    Memory,
}
