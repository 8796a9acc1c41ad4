//! Outcomes of runs: the one that the definitions of a run's promise let through, and the others, which they refuse.
#![tactic(auto)]

mod causes;
mod files;
mod pages;
mod sizes;

pub use causes::{
    copied_causes, later_failures, moved_copies, put_causes, request_causes, untried_causes,
};
pub use files::{moved_files, traceless_files, unwarned_files};
pub use pages::{fitting_pages, refused_pages};
pub use sizes::large_pieces;
