//! What an answer means for its request: a success, a refusal that changed nothing, or neither for certain.
#![tactic(auto)]

mod classes;
mod law;
mod refusals;
mod replies;
mod retries;

pub use classes::classify;
pub use law::{one_class, one_reading, one_shown};
pub use refusals::is_head;
pub use retries::again;
