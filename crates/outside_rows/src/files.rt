//! Calls on files, with the answer of each.
//!
//! `memory FAILING | ITEM | ITEM ..` chooses files in memory, and `disk` those of the system. FAILING are the numbers of
//! the calls that fail, and of reads that give less: `1x2` says that the second call gives two bytes. An item is a file
//! `PATH=BYTES`, a folder `PATH/`, names that are no text `FOLDER?COUNT`, so many empty files `FOLDER*COUNT`, or else
//! the path of something that is neither. `make`, `place`, `finish` and `drop` put files together, several at a time:
//! the one that was made first is meant.

mod assemblies;
mod calls;
pub(crate) mod chosen;
mod memory;
mod trees;

use crate::files::chosen::Chosen;
use crate::rows::add;

/// Adds a call with its answer.
pub(crate) fn add_row(rt: &HostRuntime, files: &mut Chosen, row: &mut String, line: &str) {
    add(row, line);
    add(row, " => ");
    files.add_answer(rt, row, line);
}
