//! Runs in which little is common that meet the definitions of the promise, and neighbours that do not.
#![tactic(auto)]

mod neighbours;
mod witnesses;

pub use neighbours::{buffers, file_calls, moved_upload, other_files, setting};
pub use witnesses::{
    cancelled_run, copy_in_parts, external_write, memory_ran_out, moved_download, refused_head,
};
