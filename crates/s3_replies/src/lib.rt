//! The documents that an S3 service answers with.
#![tactic(auto)]

mod buckets;
mod codes;
mod encodings;
mod errors;
mod keys;
mod law;
mod listing;
mod pages;
mod results;

pub use buckets::read_buckets;
pub use codes::{ErrorCode, error_code};
pub use errors::read_error;
pub use law::one_value;
pub use pages::read_list;
pub use reply_xml::{DocFault, Element};
pub use results::{read_completed, read_copied, read_created};
