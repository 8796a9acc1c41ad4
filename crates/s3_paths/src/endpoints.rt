//! The URLs of services.

ghost use Rattle.std.specs.Prelude.{◌≡◌, ◌≢◌, OnOk, IfOk, IfErr, Some, None};
ghost use Rattle.std.specs.List.{list_all};
ghost use Rattle.s3_paths.specs.Endpoints.{
  IsEndpoint,
  is_host_byte,
  is_host,
  host_of,
  port_number,
  port_of,
  authority_in,
  endpoint_fault,
};

use crate::uris::split_at_slash;
use s3_model::{Endpoint, EndpointFault, Text};
use std::alloc::Global;

const DEFAULT_PORT: u16 = 80;

fn is_host_byte(byte: u8) -> bool
    ensures { result ≡ is_host_byte byte }
{
    byte.is_ascii_alphanumeric() || byte == b'.' || byte == b'-'
}

fn all_host_bytes(host: &[u8]) -> bool
    ensures { result ≡ list_all is_host_byte host.now }
{
    host.iter().all(|byte| is_host_byte(*byte))
}

fn is_host(host: &str) -> bool
    ensures { result ≡ is_host host.now }
{
    !host.is_empty() && all_host_bytes(host.as_bytes())
}

fn port_number(digits: &str) -> Option<u16>
    ensures { result ≡ port_number digits.now }
{
    if digits.starts_with('+') {
        return None;
    }
    let Ok(port) = digits.parse::<u16>() else {
        return None;
    };
    (port > 0).then_some(port)
}

/// The host, and the port that follows a `:`.
fn host_and_port(authority: &str) -> (&str, Option<u16>)
    ensures host { result.0.now ≡ host_of authority.now }
    ensures port { result.1 ≡ port_of authority.now }
{
    match authority.split_once(':') {
        Some((host, port)) => (host, port_number(port)),
        None => (authority, Some(DEFAULT_PORT)),
    }
}

/// The authority with its host and port.
fn parts_of(text: &str) -> Result<(&str, &str, u16), EndpointFault>
    ensures fits { OnOk result (endpoint_fault text.now ≡ None) }
    ensures authority { IfOk result (λ parts. parts.0.now ≡ authority_in text.now) }
    ensures host { IfOk result (λ parts. parts.1.now ≡ host_of (authority_in text.now)) }
    ensures port { IfOk result (λ parts. Some parts.2 ≡ port_of (authority_in text.now)) }
    ensures fault { IfErr result (λ fault. endpoint_fault text.now ≡ Some fault) }
{
    if text.starts_with("https://") {
        return Err(EndpointFault::Tls);
    }
    let Some(rest) = text.strip_prefix("http://") else {
        return Err(EndpointFault::NotHttp);
    };
    let (authority, path) = split_at_slash(rest);
    if !path.is_empty() {
        return Err(EndpointFault::HasPath);
    }
    let (host, port) = host_and_port(authority);
    if !is_host(host) {
        return Err(EndpointFault::NoHost);
    }
    match port {
        Some(port) => Ok((authority, host, port)),
        None => Err(EndpointFault::BadPort),
    }
}

/// Reads an endpoint, `http://host` or `http://host:port`, which one `/` may follow. The port is 80 where none is written.
///
/// A host has letters, digits, `.` and `-`; a port is digits whose number is 1 to 65,535, where zeros may come first
/// (RFC 3986, section 3.2).
pub fn endpoint(alloc: Global, text: &str) -> Result<Endpoint, EndpointFault>
    ensures fits { OnOk result (endpoint_fault text.now ≡ None) }
    ensures written { IfOk result (λ endpoint. endpoint.written ≡ authority_in text.now) }
    ensures host { IfOk result (λ endpoint. endpoint.host ≡ host_of (authority_in text.now)) }
    ensures port { IfOk result (λ endpoint. Some endpoint.port ≡ port_of (authority_in text.now)) }
    ensures endpoint { IfOk result (λ endpoint. IsEndpoint text.now endpoint.host endpoint.written endpoint.port) }
    ensures fault { IfErr result (λ fault. fault ≢ EndpointFault.Memory → endpoint_fault text.now ≡ Some fault) }
{
    let (authority, host, port) = parts_of(text)?;
    match (Text::of(alloc, host), Text::of(alloc, authority)) {
        (Ok(host), Ok(written)) => Ok(Endpoint {
            host,
            port,
            written,
        }),
        _ => Err(EndpointFault::Memory),
    }
}
