//! S3 URIs, the names of a transfer's two sides, and endpoints.
#![tactic(auto)]

mod endpoints;
mod names;
mod uris;

pub use endpoints::endpoint;
pub use names::{joined, key_of, local_of, name_skip};
pub use s3_model::{Endpoint, EndpointFault, KeySkip, UriFault};
pub use uris::S3Uri;
