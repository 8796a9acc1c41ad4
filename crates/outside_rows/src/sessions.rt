//! Exchanges with a service on one wire.

ghost use Rattle.std.specs.Prelude.{◌≤◌, IfSome};

use crate::bytes::copied;
use crate::lines::{push, text_of};
use http_exchange::{AnswerRoom, exchange};
use outside_memory::{ScriptWire, WireCall};
use s3_model::{Bytes, Endpoint, OutOfMemory, Talked, Why};
use std::alloc::Global;

const HEAD: &[u8; 18] = b"PUT / HTTP/1.1\r\n\r\n";

/// The greatest number of bytes that a request takes into its place.
pub(crate) const PLACE: u64 = 41_943_040;

/// What a request is: whether it is a HEAD, and how many bytes it takes into a place of its own.
#[derive(Clone, Copy)]
pub(crate) struct Request {
    pub is_head: bool,
    pub limit: Option<u64>,
}

/// A service, the room in which its answers are read, the place of bodies, and what the last exchange came to.
#[derive(Drop)]
pub(crate) struct Session {
    room: AnswerRoom,
    endpoint: Endpoint,
    place: Bytes,
    last: Talked,
}

fn endpoint(alloc: Global) -> Endpoint {
    Endpoint {
        host: text_of(alloc, "localhost"),
        port: 9000,
        written: text_of(alloc, "localhost:9000"),
    }
}

/// The one answer of a wire.
pub(crate) fn single(alloc: Global, answer: &[u8]) -> Vec<Vec<u8>> {
    let mut answers = Vec::new(alloc);
    push(&mut answers, copied(alloc, answer));
    answers
}

/// The two answers of a wire.
pub(crate) fn pair(alloc: Global, first: &[u8], second: &[u8]) -> Vec<Vec<u8>> {
    let mut answers = single(alloc, first);
    push(&mut answers, copied(alloc, second));
    answers
}

/// A wire that plays this answer, by at most so many bytes a call.
pub(crate) fn wire(alloc: Global, answer: &[u8], most: usize) -> ScriptWire {
    let mut wire = ScriptWire::make(alloc, single(alloc, answer), Vec::new(alloc), 0);
    wire.move_at_most(most.max(1));
    wire
}

fn call_named(name: &str) -> Option<WireCall> {
    match name {
        "begin" => Some(WireCall::Begin),
        "send" => Some(WireCall::Send),
        "take" => Some(WireCall::Take),
        _ => None,
    }
}

/// The call of that name and number, which fails; none where no call has the name.
pub(crate) fn failing_calls(alloc: Global, name: &str, number: usize) -> Vec<(WireCall, usize)> {
    let mut failing = Vec::new(alloc);
    if let Some(call) = call_named(name) {
        push(&mut failing, (call, number));
    }
    failing
}

impl Session {
    pub(crate) fn make(alloc: Global) -> Result<Session, OutOfMemory> {
        let room = AnswerRoom::make(alloc)?;
        let place = Bytes::make(alloc, PLACE)?;
        let endpoint = endpoint(alloc);
        Ok(Session {
            room,
            endpoint,
            place,
            last: Talked::Broken(Why::Internal),
        })
    }

    /// The body in the place of the last exchange.
    pub(crate) fn placed(&self) -> &[u8] {
        self.place.as_slice()
    }

    /// How many bytes the place takes for a request.
    fn limit_of(&self, request: Request) -> Option<u64>
        ensures { IfSome result (λ most. most ≤ self.now.place.room) }
    {
        match request.limit {
            Some(most) => Some(most.min(self.place.room())),
            None => None,
        }
    }

    /// What the last exchange came to that was played.
    pub(crate) fn last(&self) -> &Talked {
        &self.last
    }

    /// One exchange, of which it is kept what it comes to.
    pub(crate) fn play(&mut self, alloc: Global, wire: &mut ScriptWire, request: Request) {
        self.last = self.talk(alloc, wire, request);
    }

    /// One exchange.
    pub(crate) fn talk(
        &mut self,
        alloc: Global,
        wire: &mut ScriptWire,
        request: Request,
    ) -> Talked {
        self.place.clear();
        let limit = self.limit_of(request);
        exchange(
            alloc,
            wire,
            &mut self.room,
            &self.endpoint,
            HEAD,
            b"hello",
            request.is_head,
            true,
            limit,
            &mut self.place,
        )
    }
}
