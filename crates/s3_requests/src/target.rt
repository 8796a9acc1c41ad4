//! Paths and queries, escaped.
ghost use Rattle.std.specs.Prelude.{◌≡◌, ◌++◌, ◌∷◌, [], OnOk, codes, decimal, string_bytes};
ghost use Rattle.std.specs.Option.{option_copied};
ghost use Rattle.s3_requests.specs.Requests as spec;
ghost use Rattle.s3_requests.specs.Descriptions.{path_in, query_in};
ghost use Rattle.s3_requests.specs.Headers.{delimiter_text, token_text};
ghost use Rattle.s3_signing.specs.Signing.{canonical_query, encode_path, encode_query};

use crate::description::{Query, Resource};
use itoa::Buffer;
use s3_signing::{push_bucket_path, push_object_path, push_query};
use std::alloc::AllocError;

/// Adds the path of a resource, escaped.
#[tactic(auto, using(crate::proofs::RequestLemmas::service_path))]
pub fn push_resource(out: &mut String, resource: Resource<'_>) -> Result<(), AllocError>
    ensures { OnOk result (string_bytes out.new ≡ string_bytes out.old ++ encode_path (path_in resource.entry)) }
{
    match resource {
        Resource::Service => out.push_str("/"),
        Resource::Bucket(bucket) => push_bucket_path(out, bucket),
        Resource::Object(bucket, key) => push_object_path(out, bucket, key),
    }
}

/// Adds a parameter of a query, its value escaped.
fn push_parameter(out: &mut String, name: &str, value: &str) -> Result<(), AllocError>
    ensures { OnOk result (string_bytes out.new ≡ string_bytes out.old ++ (name.now ++ encode_query value.now)) }
{
    out.push_str(name)?;
    push_query(out, value)
}

fn push_part_number(out: &mut String, number: u32) -> Result<(), AllocError>
    ensures { OnOk result (string_bytes out.new
        ≡ string_bytes out.old ++ (codes "partNumber=" ++ encode_query (decimal number))) }
{
    push_parameter(out, "partNumber=", Buffer::new().format(number))
}

#[tactic(auto, using(crate::proofs::RequestLemmas::queries))]
fn push_part_query(out: &mut String, number: u32, upload: &str) -> Result<(), AllocError>
    ensures { OnOk result (string_bytes out.new
        ≡ string_bytes out.old ++ canonical_query (spec.part_number number ∷ spec.upload_id upload.now ∷ [])) }
{
    push_part_number(out, number)?;
    push_parameter(out, "&uploadId=", upload)
}

fn push_token(out: &mut String, token: Option<&str>) -> Result<(), AllocError>
    ensures { OnOk result (string_bytes out.new ≡ string_bytes out.old ++ token_text (option_copied token.entry)) }
{
    match token {
        Some(token) => {
            push_parameter(out, "continuation-token=", token)?;
            out.push_str("&")
        }
        None => Ok(()),
    }
}

fn push_delimiter(out: &mut String, delimited: bool) -> Result<(), AllocError>
    ensures { OnOk result (string_bytes out.new ≡ string_bytes out.old ++ delimiter_text delimited) }
{
    if delimited {
        out.push_str("delimiter=%2F&")
    } else {
        Ok(())
    }
}

#[tactic(auto, using(crate::proofs::RequestLemmas::listing_written))]
fn push_list_query(
    out: &mut String,
    prefix: &str,
    delimited: bool,
    token: Option<&str>,
) -> Result<(), AllocError>
    ensures { OnOk result (string_bytes out.new
        ≡ string_bytes out.old
        ++ canonical_query (spec.list_parameters prefix.now delimited (option_copied token.entry))) }
{
    push_token(out, token)?;
    push_delimiter(out, delimited)?;
    out.push_str("encoding-type=url&list-type=2")?;
    push_parameter(out, "&prefix=", prefix)
}

/// Adds a query as it is signed.
#[tactic(auto, using(crate::proofs::RequestLemmas::queries))]
pub fn push_signed_query(out: &mut String, query: Query<'_>) -> Result<(), AllocError>
    ensures { OnOk result (string_bytes out.new ≡ string_bytes out.old ++ canonical_query (query_in query.entry)) }
{
    match query {
        Query::Empty => Ok(()),
        Query::Uploads => out.push_str("uploads="),
        Query::Upload(upload) => push_parameter(out, "uploadId=", upload),
        Query::Part(number, upload) => push_part_query(out, number, upload),
        Query::Listing {
            prefix,
            delimited,
            token,
        } => push_list_query(out, prefix, delimited, token),
    }
}

/// Adds `?` and a query.
fn push_marked(out: &mut String, query: &str) -> Result<(), AllocError>
    ensures { OnOk result (string_bytes out.new ≡ string_bytes out.old ++ (codes "?" ++ query.now)) }
{
    out.push_str("?")?;
    out.push_str(query)
}

/// Adds `?` and the query, where there is one; `uploads` stands there without `=`.
#[tactic(auto, using(crate::proofs::RequestLemmas::targets))]
pub fn push_target_query(out: &mut String, query: Query<'_>, signed: &str) -> Result<(), AllocError>
    requires { signed.now ≡ canonical_query (query_in query) }
    ensures { OnOk result (string_bytes out.new ≡ string_bytes out.old ++ spec.target_query (query_in query.entry)) }
{
    match query {
        Query::Empty => Ok(()),
        Query::Uploads => out.push_str("?uploads"),
        Query::Upload(_) => push_marked(out, signed),
        Query::Part(_, _) => push_marked(out, signed),
        Query::Listing { .. } => push_marked(out, signed),
    }
}
