//! Presigned URLs: an object that anyone may read for a while, without keys.
#![tactic(auto)]

mod parameters;
mod urls;

pub use urls::{PresignFault, presign};
