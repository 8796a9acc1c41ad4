//! What a command line asks to be transferred or removed, and what stands at the source of an upload.
#![tactic(auto)]

mod ends;
mod entries;
mod errand;
mod sources;

pub use entries::{single_file, single_object, single_removal};
pub use errand::{is_many, take_errand};
pub use sources::{LocalSource, local_source};
