//! Files and folders in memory, and what calls make of them.
#![tactic(auto)]

mod ends;
mod file;
mod folders;
mod keys_below;
mod names;
mod path_list;
mod table;

pub use file::MemFile;
pub use table::{FileTable, TableFault};
