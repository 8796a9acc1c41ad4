//! What tasks and jobs come to.

use crate::answers::Why;
use crate::requests::Op;
use crate::text::Text;
use crate::tries::Tries;

/// Why a run or a task was cancelled.
#[derive(Clone, Copy, Debug)]
pub enum Reason {
    TaskFailed,
    OutputFailed,
    ListingEnded,
    OutOfMemory,
}

#[derive(Clone, Copy, Debug)]
pub enum FileCall {
    Read,
    Create,
    Write,
    Rename,
    Remove,
}

/// Why a task did not end as it was planned. In `Blocked`, the first `length` bytes of the destination path
/// name what stands in the way.
#[derive(Drop)]
pub enum Cause {
    Service { op: Op, code: Text, message: Text },
    Lost { op: Op, why: Why },
    Changed,
    BadReply { op: Op },
    Files { call: FileCall },
    Blocked { length: u32 },
    Cancelled { reason: Reason },
    Memory,
}

/// How a task ended.
#[derive(Drop)]
pub enum Outcome {
    Done,
    /// The copy of a moved source stands, and the source may stand too.
    Copied(Cause),
    /// The destination is as before.
    Failed(Cause),
    /// The destination is as before or new, and nobody here can know which.
    Unknown(Cause),
    Dry,
    Skipped,
}

/// The name of a job. Planning jobs have no task; `number` is that of a part or a range, else 0.
#[derive(Clone, Copy, Debug, PartialEq, Eq)]
pub struct JobId {
    pub task: Option<u32>,
    pub op: Op,
    pub number: u32,
}

/// One entry of the journal.
#[derive(Drop)]
pub enum Event {
    Given { job: JobId, lane: u32 },
    Came { job: JobId, lane: u32, tries: Tries },
}
