//! What `ls` prints of what was listed.
#![tactic(auto)]

mod names;
mod text;

pub use text::{buckets_text, listing_text};
