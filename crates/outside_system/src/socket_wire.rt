//! A wire over a socket.

ghost use Rattle.std.specs.Prelude.{◌≡◌, ◌≤◌, None, IfOk, length};
ghost use Rattle.std.specs.Io.{ReadsAtMost};
ghost use Rattle.s3_model.specs.Counts.{Rose};

use s3_outside::{Failed, Wire, count_fault};
use std::io::{ErrorKind, Read, Write};
use std::net::{Net, OpenStream, TcpStream, ToSocketAddrs};
use std::rt::Clock;
use std::time::{Duration, SystemTime, UNIX_EPOCH};
use std::{io, thread};

/// The last second before the year 10,000.
const LAST_MOMENT: u64 = 253_402_300_799;

/// How many seconds a call waits for a byte or an address, as the AWS CLI's defaults for connecting and reading.
const LIMIT: u32 = 60;

/// The greatest length of a host's name in bytes (RFC 1035, section 2.3.4).
const HOST_LIMIT: usize = 255;

/// How often an interrupted call is made again.
const TRIES: u32 = 1_000_000;

/// The host and the port that a stream leads to.
#[derive(Clone, Copy)]
struct Peer {
    host: [u8; HOST_LIMIT],
    len: usize,
    port: u16,
}

/// A wire over the system's sockets and its clock, of which nothing is seen. A connection is kept for the next talk with
/// the same host and port. Sending and taking each give up where no byte moved for a number of seconds, 60 if nothing
/// else is said; connecting does so for each address of the host. Looking up its name has the system's own limit.
/// Nagle's algorithm (RFC 896) is off.
///
/// Where sending fails, and what came begins an answer of status 300 to 499, the rest of the request counts as sent, so
/// that the answer is heard.
#[derive(Drop)]
pub struct SocketWire<R: Net> {
    runtime: R,
    limit: u32,
    stream: Option<R::Stream>,
    peer: Peer,
    is_refused: bool,
    faults: u64,
}

impl<R: Net + Clock> SocketWire<R> {
    /// A wire that is not connected yet, and gives up after 60 seconds without a byte, or at one address.
    pub fn new(runtime: R) -> SocketWire<R>
        ensures { ⟦<SocketWire<R> as Wire>⟧.faults result ≡ 0 }
    {
        SocketWire::with_limit(runtime, LIMIT)
    }

    /// A wire that is not connected yet, and gives up after so many seconds without a byte, or at one address, at least
    /// one.
    pub fn with_limit(runtime: R, seconds: u32) -> SocketWire<R>
        ensures { ⟦<SocketWire<R> as Wire>⟧.faults result ≡ 0 }
    {
        SocketWire {
            runtime,
            limit: seconds.max(1),
            stream: None,
            peer: Peer {
                host: [0; HOST_LIMIT],
                len: 0,
                port: 0,
            },
            is_refused: false,
            faults: 0,
        }
    }

    /// Whether there is a stream to this peer that waits for a request: it has neither closed nor sent more.
    fn is_kept(&self, host: &str, port: u16) -> bool {
        let Some(stream) = &self.stream else {
            return false;
        };
        self.peer.is(host, port) && is_waiting(stream)
    }

    /// A connection to the first address of the host that answers in time.
    fn open(&self, host: &str, port: u16) -> Option<R::Stream> {
        let limit = Duration::from_secs(u64::from(self.limit));
        let addresses = (host, port).to_socket_addrs(&self.runtime).ok()?;
        for address in addresses {
            if let Ok(stream) = TcpStream::connect_timeout(&self.runtime, &address, limit) {
                if is_set_up(&stream, limit) {
                    return Some(stream);
                }
            }
        }
        None
    }

    /// A failed call ends the connection.
    fn fail(&mut self) -> Failed
        ensures rose { Rose (⟦<SocketWire<R> as Wire>⟧.faults self.old) (⟦<SocketWire<R> as Wire>⟧.faults self.new) }
        ensures later { ⟦<SocketWire<R> as Wire>⟧.faults self.old ≤ ⟦<SocketWire<R> as Wire>⟧.faults self.new }
    {
        self.stream = None;
        count_fault(&mut self.faults)
    }
}

impl Peer {
    /// The peer with this name, cut to the greatest length of one.
    fn of(host: &str, port: u16) -> Peer {
        let name = host.as_bytes();
        let len = name.len().min(HOST_LIMIT);
        let mut peer = Peer {
            host: [0; HOST_LIMIT],
            len,
            port,
        };
        peer.host[..len].copy_from_slice(&name[..len]);
        peer
    }

    /// Whether it is the peer with this name.
    fn is(&self, host: &str, port: u16) -> bool {
        match self.host.get(..self.len) {
            Some(name) => name == host.as_bytes() && self.port == port,
            None => false,
        }
    }
}

/// Sets the limits of a stream.
fn is_set_up<S: OpenStream>(stream: &S, limit: Duration) -> bool {
    stream.set_nodelay(true).is_ok()
        && stream.set_read_timeout(Some(limit)).is_ok()
        && stream.set_write_timeout(Some(limit)).is_ok()
}

/// Looks at the first bytes that came, without waiting and without taking them.
fn peek_now<S: OpenStream>(stream: &S, into: &mut [u8]) -> io::Result<usize>
    ensures { ReadsAtMost result into.new }
{
    stream.set_nonblocking(true)?;
    let peeked = stream.peek(into);
    stream.set_nonblocking(false)?;
    peeked
}

/// Whether nothing came, and the stream is open.
fn is_waiting<S: OpenStream>(stream: &S) -> bool {
    let mut byte = [0u8; 1];
    match peek_now(stream, &mut byte) {
        Err(error) => error.kind() == ErrorKind::WouldBlock,
        Ok(_) => false,
    }
}

/// Whether what came begins an answer of status 300 to 499 (RFC 9112, section 4).
fn has_refused<S: OpenStream>(stream: &S) -> bool {
    let mut front = [0u8; 12];
    match peek_now(stream, &mut front) {
        Ok(12) => front.starts_with(b"HTTP/1.") && begins_refusal(&front[7..]),
        _ => false,
    }
}

/// Whether the bytes are the minor digit of HTTP/1.0 or 1.1, and behind a blank a status from 300 to 499.
fn begins_refusal(bytes: &[u8]) -> bool {
    matches!(
        bytes,
        [b'0' | b'1', b' ', b'3' | b'4', b'0'..=b'9', b'0'..=b'9']
    )
}

/// Writes a first part of the bytes. An interrupted call is made again.
fn write_some<S: Write>(stream: &mut S, bytes: &[u8]) -> Result<usize, Failed>
    ensures { IfOk result (λ count. count ≤ length bytes.now) }
{
    for _ in 0..TRIES {
        match stream.write(bytes) {
            Ok(count) => return Ok(count),
            Err(error) if error.kind() == ErrorKind::Interrupted => {}
            Err(_) => return Err(Failed),
        }
    }
    Err(Failed)
}

/// Reads some bytes. An interrupted call is made again.
fn read_some<S: Read>(stream: &mut S, into: &mut [u8]) -> Result<usize, Failed>
    ensures bound { IfOk result (λ count. count ≤ length into.new) }
    ensures length { length into.new ≡ length into.old }
{
    for _ in 0..TRIES {
        match stream.read(into) {
            Ok(count) => return Ok(count),
            Err(error) if error.kind() == ErrorKind::Interrupted => {}
            Err(_) => return Err(Failed),
        }
    }
    Err(Failed)
}

impl<R: Net + Clock> Wire for SocketWire<R> {
    ghost seen = { λ _. None };

    ghost alive = { λ _. None };

    ghost opened = { λ _. None };

    ghost faults = { λ w. w.faults };

    fn begin(&mut self, host: &str, port: u16) -> Result<(), Failed> {
        self.is_refused = false;
        if self.is_kept(host, port) {
            return Ok(());
        }
        self.stream = self.open(host, port);
        self.peer = Peer::of(host, port);
        if self.stream.is_some() {
            Ok(())
        } else {
            Err(self.fail())
        }
    }

    fn send(&mut self, bytes: &[u8]) -> Result<usize, Failed> {
        if self.is_refused {
            return Ok(bytes.len());
        }
        let Some(stream) = &mut self.stream else {
            return Err(self.fail());
        };
        match write_some(stream, bytes) {
            Ok(count) if count > 0 || bytes.is_empty() => Ok(count),
            _ if has_refused(stream) => {
                self.is_refused = true;
                Ok(bytes.len())
            }
            _ => Err(self.fail()),
        }
    }

    fn take(&mut self, into: &mut [u8]) -> Result<usize, Failed> {
        let Some(stream) = &mut self.stream else {
            return Err(self.fail());
        };
        match read_some(stream, into) {
            Ok(count) => Ok(count),
            Err(_) => Err(self.fail()),
        }
    }

    fn finish(&mut self, keep: bool) {
        if !keep || self.is_refused {
            self.stream = None;
        }
    }

    /// A clock that fails or stands outside the range counts a fault, and the nearest bound is answered.
    fn moment(&mut self) -> u64 {
        let seconds = match SystemTime::now(&self.runtime) {
            Ok(now) => now
                .duration_since(UNIX_EPOCH)
                .map_or(0, |since| since.as_secs()),
            Err(_) => {
                count_fault(&mut self.faults);
                0
            }
        };
        if seconds > LAST_MOMENT {
            count_fault(&mut self.faults);
        }
        seconds.min(LAST_MOMENT)
    }

    fn pause(&mut self, seconds: u32) {
        thread::sleep(&self.runtime, Duration::from_secs(u64::from(seconds)));
    }
}
