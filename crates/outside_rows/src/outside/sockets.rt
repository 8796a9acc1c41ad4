//! Wires over sockets. The system completes a connection before it is accepted, so one thread plays both sides.

use crate::lines::{http, word_and_rest};
use crate::outside::calls::{Called, add_calls};
use crate::outside::wires::add_answer;
use crate::rows::{add, add_came, add_done, add_shown};
use outside_system::SocketWire;
use s3_outside::Wire;
use std::alloc::Global;
use std::io::{self, Read, Write};
use std::net::{TcpListener, TcpStream};

/// A service on this machine, and the connection that it took last. Where it does not listen, connections are refused.
#[derive(Drop)]
struct Service {
    listener: Option<TcpListener>,
    port: u16,
    peer: Option<TcpStream>,
}

fn started(rt: &HostRuntime) -> io::Result<Service> {
    let listener = TcpListener::bind(rt, "127.0.0.1:0")?;
    let port = listener.local_addr()?.port();
    Ok(Service {
        listener: Some(listener),
        port,
        peer: None,
    })
}

fn add_heard(peer: &mut TcpStream, row: &mut String) {
    let mut into = [0u8; 8];
    match peer.read(&mut into) {
        Ok(count) => add_came(row, into.get(..count).unwrap_or(&[])),
        Err(_) => add(row, "not heard"),
    }
}

impl Service {
    fn accept(&mut self) -> io::Result<()> {
        if let Some(listener) = &self.listener {
            let (peer, _) = listener.accept()?;
            self.peer = Some(peer);
        }
        Ok(())
    }

    /// Adds what the other side said.
    fn hear(&mut self, row: &mut String) {
        match &mut self.peer {
            Some(peer) => add_heard(peer, row),
            None => add(row, "no connection"),
        }
    }

    fn say(&mut self, bytes: &[u8]) -> io::Result<()> {
        match &mut self.peer {
            Some(peer) => peer.write_all(bytes),
            None => Ok(()),
        }
    }

    fn close(&mut self) {
        self.peer = None;
    }

    /// Says this and closes with bytes unread, which resets the connection.
    fn refuse(&mut self, said: &str) -> io::Result<()> {
        self.accept()?;
        self.say(said.as_bytes())?;
        self.close();
        Ok(())
    }
}

/// A wire, and the service that it talks with.
#[derive(Drop)]
struct Played {
    wire: SocketWire<HostRuntime>,
    service: Service,
}

fn has_begun<W: Wire>(wire: &mut W, port: u16) -> bool {
    wire.begin("127.0.0.1", port).is_ok() && wire.send(b"ping").is_ok()
}

/// Whether bytes count as sent, and what comes is the front of what the service said.
fn is_answered<W: Wire>(wire: &mut W, said: &str) -> bool {
    let sent = wire.send(b"pong");
    let mut into = [0u8; 12];
    let got = wire.take(&mut into);
    wire.finish(true);
    sent == Ok(4) && got == Ok(12) && said.as_bytes().starts_with(&into)
}

fn wire_of(rt: HostRuntime, how: &str) -> SocketWire<HostRuntime> {
    match how {
        "impatient" => SocketWire::with_limit(rt, 1),
        _ => SocketWire::new(rt),
    }
}

impl Played {
    fn make(rt: &HostRuntime, how: &str) -> io::Result<Played> {
        let service = started(rt)?;
        let wire = wire_of(rt.clone()?, how);
        Ok(Played { wire, service })
    }

    /// Whether the front of what the service said comes, after it has refused early.
    fn is_heard(&mut self, said: &str) -> bool {
        has_begun(&mut self.wire, self.service.port)
            && self.service.refuse(said).is_ok()
            && is_answered(&mut self.wire, said)
    }

    fn add_heard(&mut self, alloc: Global, row: &mut String, text: &str) {
        let said = http(alloc, text);
        add_shown(row, self.is_heard(said.as_str()));
    }

    /// Adds what the wire answers.
    fn add_called(&mut self, row: &mut String, call: &str) {
        let service = ("127.0.0.1", self.service.port);
        add_answer(&mut self.wire, row, service, call);
    }
}

impl Called for Played {
    fn add_answer(&mut self, alloc: Global, row: &mut String, call: &str) {
        let (name, text) = word_and_rest(call);
        match name {
            "accept" => add_done(row, self.service.accept()),
            "say" => add_done(row, self.service.say(text.as_bytes())),
            "close" => {
                self.service.close();
                add(row, "done");
            }
            "hear" => self.service.hear(row),
            "heard" => self.add_heard(alloc, row, text),
            _ => self.add_called(row, call),
        }
    }
}

pub(crate) fn add_answers(
    rt: &HostRuntime,
    row: &mut String,
    how: &str,
    calls: &str,
) -> io::Result<()> {
    let mut played = Played::make(rt, how)?;
    if how == "refused" {
        played.service.listener = None;
    }
    add_calls(&mut played, rt.alloc(), row, calls);
    Ok(())
}
