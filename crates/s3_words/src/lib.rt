//! The words of a command line.
#![tactic(auto)]

mod commands;
mod faults;
mod given;
mod options;
mod places;
mod reader;
mod roles;
mod values;
mod words;

pub use commands::{Command, Verb};
pub use s3_model::WordFault;
pub use words::read_words;
