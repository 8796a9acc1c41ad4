//! What the requests to one service have in common.

ghost use Rattle.std.specs.Prelude.{◌≡◌, IfOk};

use http_exchange::AnswerRoom;
use s3_model::{Endpoint, Keys, OutOfMemory};
use s3_requests::{HeadRoom, Signer};
use std::alloc::Global;
use std::mem;

/// Where the requests to a service go, what signs them, and the rooms in which their heads are written and their answers
/// are read. One client serves one request after the other; the signing key of a day is made once, and the rooms are
/// used anew.
#[derive(Drop)]
pub struct Client {
    pub endpoint: Endpoint,
    pub signer: Signer,
    pub heads: HeadRoom,
    pub room: AnswerRoom,
}

impl Client {
    /// A client of the service at `endpoint`, some 800 KiB of memory.
    pub fn make(alloc: Global, endpoint: Endpoint, keys: Keys) -> Result<Client, OutOfMemory>
        ensures endpoint { IfOk result (λ client. client.endpoint ≡ endpoint) }
        ensures keys { IfOk result (λ client. client.signer ≡ keys) }
    {
        match AnswerRoom::make(alloc) {
            Ok(room) => Ok(Client {
                endpoint,
                signer: Signer::new(keys),
                heads: HeadRoom::new(alloc),
                room,
            }),
            Err(fault) => {
                mem::drop(endpoint);
                mem::drop(keys);
                Err(fault)
            }
        }
    }
}
