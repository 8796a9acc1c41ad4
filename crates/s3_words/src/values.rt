//! The values of options.

ghost use Rattle.std.specs.Prelude.{◌≡◌, ◌≢◌, OnOk, IfOk, IfErr, Some, None};
ghost use Rattle.std.specs.List.{list_all};
ghost use Rattle.s3_words.specs.Endpoints.{IsEndpointOf, IsRead};
ghost use Rattle.s3_words.specs.Values.{
  fits,
  is_media_type,
  is_printable,
  is_region,
  is_region_byte,
  seconds,
  value_fault,
};
ghost use Rattle.s3_words.specs.declared.options.ValueKind.TheVariants.{Url};

use crate::options::ValueKind;
use s3_model::{Endpoint, EndpointFault, WordFault};
use s3_paths::endpoint;
use std::alloc::Global;

const LONGEST_EXPIRY: u64 = 604_800;

fn is_region_byte(byte: u8) -> bool
    ensures { result ≡ is_region_byte byte }
{
    byte.is_ascii_alphanumeric() || byte == b'-'
}

fn all_region_bytes(text: &[u8]) -> bool
    ensures { result ≡ list_all is_region_byte text.now }
{
    text.iter().all(|byte| is_region_byte(*byte))
}

fn is_region(text: &str) -> bool
    ensures { result ≡ is_region text.now }
{
    !text.is_empty() && all_region_bytes(text.as_bytes())
}

fn is_printable(byte: u8) -> bool
    ensures { result ≡ is_printable byte }
{
    b' ' <= byte && byte <= b'~'
}

fn all_printable(text: &[u8]) -> bool
    ensures { result ≡ list_all is_printable text.now }
{
    text.iter().all(|byte| is_printable(*byte))
}

fn is_media_type(text: &str) -> bool
    ensures { result ≡ is_media_type text.now }
{
    !text.is_empty() && all_printable(text.as_bytes())
}

/// The number that decimal digits write, where it is 1 to 604,800; zeros may come first.
pub(crate) fn seconds(text: &str) -> Option<u64>
    ensures { result ≡ seconds text.now }
{
    if text.starts_with('+') {
        return None;
    }
    let Ok(number) = text.parse::<u64>() else {
        return None;
    };
    (number > 0 && number <= LONGEST_EXPIRY).then_some(number)
}

fn fits(kind: ValueKind, text: &str) -> bool
    ensures { result ≡ fits kind text.now }
{
    match kind {
        ValueKind::NoValue => false,
        ValueKind::RegionName => is_region(text),
        ValueKind::ProfileName => !text.is_empty(),
        ValueKind::MediaType => is_media_type(text),
        ValueKind::Seconds => seconds(text).is_some(),
        ValueKind::Url | ValueKind::Pattern => true,
    }
}

fn read_endpoint(alloc: Global, at: usize, url: &str) -> Result<Endpoint, WordFault>
    ensures right { OnOk result (value_fault Url at url.now ≡ None) }
    ensures endpoint { IfOk result (λ endpoint. IsEndpointOf url.now endpoint) }
    ensures fault { IfErr result (λ fault. fault ≢ WordFault.Memory → value_fault Url at url.now ≡ Some fault) }
{
    match endpoint(alloc, url) {
        Ok(endpoint) => Ok(endpoint),
        Err(EndpointFault::Memory) => Err(WordFault::Memory),
        Err(fault) => Err(WordFault::Endpoint(at, fault)),
    }
}

/// Judges the value of an option, which stands in the word at this index, and answers the endpoint that a URL names.
pub(crate) fn read_value(
    alloc: Global,
    kind: ValueKind,
    at: usize,
    text: &str,
) -> Result<Option<Endpoint>, WordFault>
    ensures right { OnOk result (value_fault kind at text.now ≡ None) }
    ensures endpoint { IfOk result (λ endpoint. IsRead kind text.now endpoint) }
    ensures fault { IfErr result (λ fault. fault ≢ WordFault.Memory → value_fault kind at text.now ≡ Some fault) }
{
    if matches!(kind, ValueKind::Url) {
        let endpoint = read_endpoint(alloc, at, text)?;
        Ok(Some(endpoint))
    } else if fits(kind, text) {
        Ok(None)
    } else {
        Err(WordFault::BadValue(at))
    }
}
