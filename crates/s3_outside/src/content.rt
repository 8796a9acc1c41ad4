//! Owned bytes.

ghost use Rattle.std.specs.Prelude.{◌≡◌, IfOk};

use s3_model::OutOfMemory;
use std::alloc::Global;
use std::marker::Model;

/// Owned bytes. Contracts see their list.
#[derive(Drop)]
pub struct Content {
    bytes: Vec<u8>,
}

impl Model for Content {
    ghost use Rattle.std.specs.Prelude.{List, ℕ};
    ghost use Rattle.std.specs.Coded.{coded_ℕ, coded_list};

    ghost Value = { List ℕ };

    ghost coded = { coded_list coded_ℕ };

    ghost view = { λ c. c.bytes.items };
}

impl Content {
    /// Takes over the bytes, without memory.
    pub fn new(bytes: Vec<u8>) -> Content
        ensures { result ≡ bytes.items }
    {
        Content { bytes }
    }

    /// A copy of bytes.
    pub fn of(alloc: Global, bytes: &[u8]) -> Result<Content, OutOfMemory>
        ensures { IfOk result (λ content. content ≡ bytes.now) }
    {
        let bytes = bytes.to_vec(alloc)?;
        Ok(Content { bytes })
    }

    /// The bytes, lent.
    pub fn as_slice(&self) -> &[u8]
        ensures { result.now ≡ self.now }
    {
        &self.bytes
    }
}
