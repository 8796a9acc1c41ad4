//! Laws that join the history of a task with the schedule of a run.
#![tactic(auto)]

mod laws;

pub use laws::{
    jobs_are_given_as_scheduled, jobs_ask_as_scheduled, outcomes_show, shares_keep_schedule,
};
