//! What a run meets outside: wires, files, outputs and the environment, each with a count of its faults.
#![tactic(auto)]

mod content;
mod env;
mod file_faults;
mod files;
mod sink;
mod temp_paths;
mod wire;

pub use content::Content;
pub use env::{Env, EnvFault, MOST_FILE_BYTES, S3_LIMITS};
pub use file_faults::{blocked, fault};
pub use files::{FileFault, FileNote, Files, Names, Shape, Temp};
pub use sink::Sink;
pub use temp_paths::temp_path;
pub use wire::{Failed, Wire, count_fault};
