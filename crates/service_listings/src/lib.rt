//! The listings of `ls`, each request a job of the first lane of a desk: what is asked for, what came, and its rows.
#![tactic(auto)]

mod laws;
mod listing;
mod questions;
mod show;

pub use laws::{listings_are_dated, paths_are_planned};
pub use listing::{Listing, Shown};
pub use questions::list;
pub use show::{ListingRun, show_listing};
