//! The pages of a listing, gathered in order.
#![tactic(auto)]

mod items;
mod laws;
mod names;
mod pages;

pub use laws::pages_are_gathered;
pub use pages::Pages;
pub use s3_model::{Ask, BadListing, Entries, Listed, OutOfMemory, Texts};
