//! Why a request asks nothing.

use s3_model::OutOfMemory;
use std::alloc::AllocFailed;

/// Why a request asks nothing.
#[derive(Clone, Copy)]
pub(crate) enum RequestFault {
    /// Memory ran out.
    Memory,
    /// It is not one of those that the service knows.
    Unknown,
}

impl From<OutOfMemory> for RequestFault {
    fn from(_: OutOfMemory) -> RequestFault {
        RequestFault::Memory
    }
}

impl From<AllocFailed<u8>> for RequestFault {
    fn from(_: AllocFailed<u8>) -> RequestFault {
        RequestFault::Memory
    }
}
