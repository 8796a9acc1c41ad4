//! The tree of files below a folder.
#![tactic(auto)]

mod answers;
mod found;
mod paths;
mod walks;

pub use s3_model::WalkFault;
pub use walks::{Walked, walk};
