//! The texts that the program prints: lines of tasks and warnings, rows of `ls`, and lines of runs that ended early.
#![tactic(auto)]

mod causes;
mod faults;
mod lines;
mod rows;
mod tasks;
mod warnings;

pub use causes::cause_text;
pub use faults::{
    answer_line, listing_line, memory_line, plan_line, profile_line, unread_line, walk_line,
    word_line,
};
pub use rows::{bucket_row, ls_prefix, ls_row};
pub use s3_model::Mode;
pub use tasks::{Line, line_of, status_of};
pub use warnings::warning_of;
