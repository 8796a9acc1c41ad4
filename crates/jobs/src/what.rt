//! What a job is for.

use s3_model::{Ask, Task, Texts, UploadId};
use std::alloc::Global;
use std::sync::Arc;

/// A request of the planning, or a step of a task.
#[derive(Drop)]
pub enum What {
    /// A HEAD, a page of a listing, or the list of buckets.
    Plan(Ask),
    /// One request of a task. `range` is the place and the length of its piece, in bytes; `upload` the upload in parts
    /// that it belongs to, and `etags` those of the parts, in the order of their numbers.
    Step {
        task: Arc<Task, Global>,
        range: (u64, u64),
        upload: Option<UploadId>,
        etags: Option<Texts>,
    },
}
