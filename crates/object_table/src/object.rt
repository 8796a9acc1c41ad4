//! Objects and parts in memory.

ghost use Rattle.std.specs.Prelude.{◌≡◌, ◌+◌, ◌-◌, ◌<◌, ◌≤◌, ◌↔◌, IfOk, IfSome, IsSome, length};
ghost use Rattle.s3_service.specs.Serves.{LiesWithin, bytes_within};

use s3_model::{OutOfMemory, Text};
use std::alloc::Global;
use std::marker::Model;

/// An object in memory. `micros` is its time, in microseconds since 1970.
#[derive(Drop)]
pub struct MemObject {
    bytes: Vec<u8>,
    etag: Text,
    micros: u64,
}

impl Model for MemObject {
    ghost use Rattle.s3_service.specs.ServiceState.{Object};
    ghost use Rattle.object_table.specs.Codes.{object_code};

    ghost Value = { Object };

    ghost coded = { object_code };

    ghost view = { λ o. record { bytes = o.bytes.items; etag = o.etag; micros = o.micros } };
}

impl MemObject {
    pub fn new(bytes: Vec<u8>, etag: Text, micros: u64) -> MemObject
        ensures { result ≡ record { bytes = bytes.items; etag = etag; micros = micros } }
    {
        MemObject {
            bytes,
            etag,
            micros,
        }
    }

    pub fn bytes(&self) -> &[u8]
        ensures { result.now ≡ self.now.bytes }
    {
        &self.bytes
    }

    pub fn etag(&self) -> &str
        ensures { result.now ≡ self.now.etag }
    {
        self.etag.as_str()
    }

    pub fn micros(&self) -> u64
        ensures { result ≡ self.now.micros }
    {
        self.micros
    }

    pub fn copy_bytes(&self, alloc: Global) -> Result<Vec<u8>, OutOfMemory>
        ensures { IfOk result (λ bytes. bytes.items ≡ self.now.bytes) }
    {
        Ok(self.bytes.as_slice().to_vec(alloc)?)
    }

    /// The bytes of a range, both ends among them.
    pub fn within(&self, range: (u64, u64)) -> Option<&[u8]>
        ensures lies { IsSome result ↔ LiesWithin range self.now.bytes }
        ensures bytes { IfSome result (λ bytes. bytes.now ≡ bytes_within range self.now.bytes) }
    {
        let (first, last) = (range.0 as usize, range.1 as usize);
        if first <= last && last < self.bytes.len() {
            Some(&self.bytes[first..last + 1])
        } else {
            None
        }
    }
}

/// A part of an upload in memory.
#[derive(Drop)]
pub struct MemPart {
    bytes: Vec<u8>,
    etag: Text,
}

impl Model for MemPart {
    ghost use Rattle.s3_service.specs.ServiceState.{StoredPart};
    ghost use Rattle.object_table.specs.Codes.{part_code};

    ghost Value = { StoredPart };

    ghost coded = { part_code };

    ghost view = { λ p. record { bytes = p.bytes.items; etag = p.etag } };
}

impl MemPart {
    pub fn new(bytes: Vec<u8>, etag: Text) -> MemPart
        ensures { result ≡ record { bytes = bytes.items; etag = etag } }
    {
        MemPart { bytes, etag }
    }

    pub fn bytes(&self) -> &[u8]
        ensures { result.now ≡ self.now.bytes }
    {
        &self.bytes
    }

    pub fn etag(&self) -> &str
        ensures { result.now ≡ self.now.etag }
    {
        self.etag.as_str()
    }
}
