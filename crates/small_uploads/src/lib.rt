//! One small upload: the file is read whole and its Put is carried to the service.
#![tactic(auto)]

mod source;
mod transfer;

pub use transfer::upload;
