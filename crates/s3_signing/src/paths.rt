//! The paths of buckets and objects, path style.
ghost use Rattle.std.specs.Prelude.{◌≡◌, ◌++◌, OnOk, string_bytes};
ghost use Rattle.s3_signing.specs.Paths.{bucket_path, object_path};
ghost use Rattle.s3_signing.specs.Signing.{encode_path};

use crate::escapes::push_path;
use std::alloc::AllocError;

/// Adds the path of a bucket, escaped.
#[tactic(auto, using(crate::proofs::PathLemmas::paths))]
pub fn push_bucket_path(out: &mut String, bucket: &str) -> Result<(), AllocError>
    ensures { OnOk result (string_bytes out.new ≡ string_bytes out.old ++ encode_path (bucket_path bucket.now)) }
{
    out.push_str("/")?;
    push_path(out, bucket)
}

/// Adds the path of an object, escaped.
#[tactic(auto, using(crate::proofs::PathLemmas::paths))]
pub fn push_object_path(out: &mut String, bucket: &str, key: &str) -> Result<(), AllocError>
    ensures { OnOk result (string_bytes out.new
        ≡ string_bytes out.old ++ encode_path (object_path bucket.now key.now)) }
{
    push_bucket_path(out, bucket)?;
    out.push_str("/")?;
    push_path(out, key)
}
