//! Runs that show something: the URL of an object, or what a service lists.
#![tactic(auto)]

mod listing;
mod url;

pub use listing::execute_listing;
pub use url::execute_presign;
