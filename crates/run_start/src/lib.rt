//! How a run starts: its words are read, and then the settings of its command.
#![tactic(auto)]

mod start;

pub use start::{Service, Start, read_start, service_of};
