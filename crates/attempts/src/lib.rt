//! One attempt of a request over a wire: it is signed and sent, and its answer is judged.
#![tactic(auto)]

mod client;
mod marks;
mod payload;
mod send;

pub use client::Client;
pub use marks::{mark_of, tries_of};
pub use payload::Payload;
pub use send::{Attempted, Judged, attempt};
