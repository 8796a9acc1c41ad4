//! The ids of uploads in parts.

ghost use Rattle.std.specs.Prelude.{◌≡◌, ◌≤◌, ◌↔◌, length, IsSome, IfSome};

use std::marker::Model;

/// The id of an upload in parts, kept in place: 1 to 1,024 bytes of UTF-8. Contracts see its bytes.
#[derive(Drop)]
pub struct UploadId {
    bytes: [u8; 1024],
    count: usize,
}

impl Model for UploadId {
    ghost use Rattle.std.specs.Prelude.{List, ℕ, take, ◌≤◌, IsUtf8};

    ghost Value = { List ℕ };

    ghost view = { λ u. take u.count u.bytes };

    ghost invariant = { λ u. (1 ≤ u.count) × (u.count ≤ 1024) × IsUtf8 (take u.count u.bytes) };
}

impl UploadId {
    /// None where the text is empty or longer than 1,024 bytes.
    pub fn of(text: &str) -> Option<UploadId>
        ensures fits { IsSome result ↔ ((1 ≤ length text.now) × (length text.now ≤ 1024)) }
        ensures same { IfSome result (λ id. id ≡ text.now) }
    {
        let count = text.len();
        if count == 0 || count > 1024 {
            return None;
        }
        let mut bytes = [0u8; 1024];
        bytes[..count].copy_from_slice(text.as_bytes());
        Some(UploadId { bytes, count })
    }

    pub fn as_str(&self) -> &str
        ensures { result.now ≡ self.now }
    {
        unsafe { std::str::from_utf8_unchecked(&self.bytes[..self.count]) }
    }

    pub fn copy(&self) -> UploadId
        ensures { result ≡ self.now }
    {
        UploadId {
            bytes: self.bytes,
            count: self.count,
        }
    }
}
