//! Laws over every honest trace of a service: what a run leaves there, whatever is lost, refused or served late.
#![tactic(auto)]

mod laws;

pub use laws::{
    Command, Reading, abort, carried_jobs, complete, download, found_source, moved_copy,
    multipart_copy, multipart_upload, other_uploads, others_stay, refusal, removal, small_copy,
    small_upload, task, truthful,
};
