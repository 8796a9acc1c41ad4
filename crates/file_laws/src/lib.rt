//! Laws on local files: what a run's calls leave of destinations, of moved files and of all others, whatever fails.
#![tactic(auto)]

mod laws;

pub use laws::{download, file_removal, file_task, moved_file, other_files, plan};
