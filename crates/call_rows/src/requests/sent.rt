//! What goes out for an ask: its document and its head.

use crate::lines::{push_text, push_value, word_and_rest};
use crate::requests::asks::ask_named;
use crate::requests::fixtures::{MOMENT, endpoint, keys, said};
use s3_model::{Ask, Endpoint, OutOfMemory, Text};
use s3_requests::{HeadRoom, HexHash, Signer, body_text, head_text, payload_hash};
use std::alloc::{AllocError, Global};
use std::mem;

/// The SHA-256 and the length of a body.
#[derive(Drop)]
struct Payload {
    hash: HexHash,
    length: u64,
}

fn hashed(bytes: &[u8]) -> Payload {
    Payload {
        hash: payload_hash(bytes),
        length: bytes.len() as u64,
    }
}

/// The payload of an ask: its document, or else the bytes that the values name.
fn payload_of(alloc: Global, ask: &Ask, values: &str) -> Result<Payload, OutOfMemory> {
    let document = body_text(alloc, ask)?;
    if document.as_slice().is_empty() {
        Ok(hashed(said(values, "body").as_bytes()))
    } else {
        Ok(hashed(document.as_slice()))
    }
}

/// A head by a signing key of its own.
fn single_head(
    alloc: Global,
    ask: &Ask,
    payload: &Payload,
    values: &str,
) -> Result<Text, OutOfMemory> {
    let (endpoint, keys) = (endpoint(alloc), keys(alloc, values));
    let hash = payload.hash.as_str();
    let head = head_text(alloc, ask, &endpoint, &keys, MOMENT, hash, payload.length);
    mem::drop(keys);
    mem::drop(endpoint);
    head
}

/// The second of two heads by a signer, which keeps the key of the day.
fn head_again(
    alloc: Global,
    room: &mut HeadRoom,
    signer: &mut Signer,
    endpoint: &Endpoint,
    ask: &Ask,
    payload: &Payload,
) -> Result<Text, OutOfMemory> {
    let hash = payload.hash.as_str();
    for _ in 0..2 {
        signer.write_head(alloc, room, ask, endpoint, MOMENT, hash, payload.length)?;
    }
    Text::of(alloc, room.as_str())
}

fn second_head(
    alloc: Global,
    ask: &Ask,
    payload: &Payload,
    values: &str,
) -> Result<Text, OutOfMemory> {
    let endpoint = endpoint(alloc);
    let mut signer = Signer::new(keys(alloc, values));
    let mut room = HeadRoom::new(alloc);
    let head = head_again(alloc, &mut room, &mut signer, &endpoint, ask, payload);
    mem::drop(room);
    mem::drop(signer);
    mem::drop(endpoint);
    head
}

/// A head, the second one where that is asked for.
fn head(alloc: Global, call: &str, ask: &Ask, values: &str) -> Result<Text, OutOfMemory> {
    let payload = payload_of(alloc, ask, values)?;
    match call {
        "second" => second_head(alloc, ask, &payload, values),
        _ => single_head(alloc, ask, &payload, values),
    }
}

/// Adds the document of an ask.
fn push_document(alloc: Global, out: &mut String, ask: &Ask) -> Result<(), AllocError> {
    match body_text(alloc, ask) {
        Ok(document) => {
            let text = str::from_utf8(document.as_slice()).unwrap_or("no UTF-8");
            push_value(out, text)
        }
        Err(fault) => push_value(out, fault),
    }
}

fn push_payload(out: &mut String, payload: &Payload) -> Result<(), AllocError> {
    write!(out, "{} {}", payload.length, payload.hash.as_str())
}

/// Adds the length of the document of an ask, and its SHA-256.
fn push_size(alloc: Global, out: &mut String, ask: &Ask) -> Result<(), AllocError> {
    match body_text(alloc, ask) {
        Ok(document) => push_payload(out, &hashed(document.as_slice())),
        Err(fault) => push_value(out, fault),
    }
}

fn push_sent_for(
    alloc: Global,
    out: &mut String,
    call: &str,
    ask: &Ask,
    values: &str,
) -> Result<(), AllocError> {
    match call {
        "size" => push_size(alloc, out, ask),
        "body" => push_document(alloc, out, ask),
        _ => push_text(out, head(alloc, call, ask, values)),
    }
}

/// Adds what is sent for the ask that a text names, by its operation and its values.
pub(crate) fn push_sent(
    alloc: Global,
    out: &mut String,
    call: &str,
    text: &str,
) -> Result<(), AllocError> {
    let (name, values) = word_and_rest(text);
    let ask = ask_named(alloc, name, values);
    let pushed = push_sent_for(alloc, out, call, &ask, values);
    mem::drop(ask);
    pushed
}
