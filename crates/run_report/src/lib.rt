//! What a run comes to: its record, the line that it shows, and its exit status.
#![tactic(auto)]

mod endings;
mod lists;
mod output;
mod printout;
mod reports;
mod run;
mod texts;
mod worked;

pub use endings::{
    end_early, end_idle, end_left_out, end_not_a_file, end_skipped, end_with_text, ending_text,
};
pub use lists::list_of;
pub use printout::{Printout, opening_text, task_text};
pub use reports::report;
pub use run::{Fatal, Run};
pub use worked::{Executed, Worked};
