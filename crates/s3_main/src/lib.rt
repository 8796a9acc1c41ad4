//! The top call of the program `s3`: words, settings, files and a service come in, and an exit status comes back.
#![tactic(auto)]

mod execution;
mod top;

pub use run_report::{Fatal, Run};
pub use top::run_s3;
