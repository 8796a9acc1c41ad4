//! Wires, files, outputs and an environment in memory: they list what they were asked, and fail where they are told to.
#![tactic(auto)]

mod file_notes;
mod mem_env;
mod mem_files;
mod mem_sink;
mod script_wire;
mod table_calls;
mod table_changes;
mod talk_log;

pub use file_table::{FileTable, MemFile};
pub use mem_env::MemEnv;
pub use mem_files::MemFiles;
pub use mem_sink::MemSink;
pub use script_wire::{ScriptWire, WireCall};
pub use talk_log::{TalkEnding, TalkLog, TalkRecord, WireNote};
