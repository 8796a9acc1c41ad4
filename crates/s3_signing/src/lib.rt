//! AWS Signature Version 4: canonical requests, keyed hashes and signatures.
#![tactic(auto)]

mod canonical;
mod digits;
mod escapes;
mod headers;
mod hmac;
mod names;
mod paths;
mod query;
mod signing;
mod times;

pub use canonical::{SignedParts, canonical_request, canonical_text, write_canonical};
pub use digits::HexHash;
pub use escapes::{push_path, push_query};
pub use headers::{Header, push_signed_names};
pub use hmac::hmac_sha256;
pub use names::has_sorted_names;
pub use paths::{push_bucket_path, push_object_path};
pub use signing::{
    key_at, payload_hash, push_credential, push_signature, signature, signature_under, signing_key,
    string_to_sign,
};
pub use times::push_basic_time;
