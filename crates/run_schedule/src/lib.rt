//! Laws that join the journal and the logs of a whole run with the schedule of its tasks.
#![tactic(auto)]

mod laws;

pub use laws::{journals_show_sent, runs_keep_schedule};
