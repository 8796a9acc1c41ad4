//! What a service in memory does for each request, on its table of objects and uploads.
#![tactic(auto)]

mod changes;
mod lists;
mod parts;
mod reads;
mod requests;
mod uploads;

pub use requests::{Manner, serve};
