//! Requests of the Amazon S3 API as they are sent, signed with AWS Signature Version 4.
#![tactic(auto)]

mod body;
mod description;
mod head;
mod lines;
mod own;
mod signer;
mod target;

pub use body::body_text;
pub use head::HeadRoom;
pub use s3_signing::{
    HexHash, canonical_request, has_sorted_names, hmac_sha256, payload_hash, signature,
    signing_key, string_to_sign,
};
pub use signer::{Signer, head_text};
