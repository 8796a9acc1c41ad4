//! Sending a request.

ghost use Rattle.std.specs.Prelude.{◌≡◌, ◌++◌};
ghost use Rattle.s3_model.specs.Counts.{HasCause};
ghost use Rattle.http_exchange.specs.Steps.{Sends, Asks};

use crate::incoming::{Incoming, ROOM};
use s3_model::Endpoint;
use s3_outside::{Failed, Wire};

/// The greatest length of a body that leaves together with its head, in bytes.
const SMALL_BODY: usize = 8_192;

/// Begins a talk and sends the whole request. A small body leaves in one call with its head. Any bytes may stand in
/// `place` afterwards.
pub(crate) fn ask<W: Wire>(
    wire: &mut W,
    place: &mut Incoming,
    endpoint: &Endpoint,
    head: &[u8],
    body: &[u8],
) -> Result<(), Failed>
    ensures talk { Asks endpoint.now (head.now ++ body.now) (W.seen wire.old) (W.seen wire.new) (W.faults wire.old)
        (W.faults wire.new) result }
    ensures cause { HasCause (W.faults wire.old) (W.faults wire.new) result }
{
    wire.begin(endpoint.host.as_str(), endpoint.port)?;
    send_request(wire, place, head, body)
}

/// Sends head and body, together where the body is small and there is room for both.
fn send_request<W: Wire>(
    wire: &mut W,
    place: &mut Incoming,
    head: &[u8],
    body: &[u8],
) -> Result<(), Failed>
    ensures log { Sends (head.now ++ body.now) (W.seen wire.old) (W.seen wire.new) result }
    ensures cause { HasCause (W.faults wire.old) (W.faults wire.new) result }
{
    if body.is_empty() || body.len() > SMALL_BODY || head.len() > ROOM - SMALL_BODY {
        return send_apart(wire, head, body);
    }
    place.hold(head, body);
    send_all(wire, place.bytes())
}

/// Sends a head and then its body.
fn send_apart<W: Wire>(wire: &mut W, head: &[u8], body: &[u8]) -> Result<(), Failed>
    ensures log { Sends (head.now ++ body.now) (W.seen wire.old) (W.seen wire.new) result }
    ensures cause { HasCause (W.faults wire.old) (W.faults wire.new) result }
{
    send_all(wire, head)?;
    send_all(wire, body)
}

/// Sends all of the bytes, in as many parts as the wire takes.
fn send_all<W: Wire>(wire: &mut W, bytes: &[u8]) -> Result<(), Failed>
    ensures log { Sends bytes.now (W.seen wire.old) (W.seen wire.new) result }
    ensures cause { HasCause (W.faults wire.old) (W.faults wire.new) result }
{
    let mut sent = 0;
    while sent < bytes.len() {
        sent += wire.send(&bytes[sent..])?;
    }
    Ok(())
}
