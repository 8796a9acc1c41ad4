//! Uploads in parts in memory, and how they ended.

ghost use Rattle.std.specs.Prelude.{◌≡◌, ◌↔◌, OnOk, OnErr, IfOk, IsOk, Err, Some, None, true};
ghost use Rattle.std.specs.Option.{option_copied};
ghost use Rattle.std.specs.FinMap.{get, insert, empty};
ghost use Rattle.s3_service.specs.ServiceState.{StoredPart};

use crate::fault::Refusal;
use crate::object::MemPart;
use crate::parts::PartMap;
use s3_model::{OutOfMemory, Text};
use std::alloc::Global;
use std::marker::Model;

// Whether two lists have the same texts.
fn are_same(left: &[Text], right: &[Text]) -> bool
    ensures { result ≡ true ↔ left.now ≡ right.now }
{
    if left.len() != right.len() {
        return false;
    }
    for place in 0..left.len() {
        if left[place].as_str() != right[place].as_str() {
            return false;
        }
    }
    true
}

/// An upload in parts that has not ended.
#[derive(Drop)]
pub struct MemUpload {
    bucket: Text,
    key: Text,
    parts: PartMap,
}

impl Model for MemUpload {
    ghost use Rattle.s3_service.specs.ServiceState.{Upload};
    ghost use Rattle.object_table.specs.Codes.{upload_code};

    ghost Value = { Upload };

    ghost coded = { upload_code };

    ghost view = { λ u. record { bucket = u.bucket; key = u.key; parts = u.parts } };
}

impl MemUpload {
    /// An upload without parts.
    pub fn make(alloc: Global, bucket: Text, key: Text) -> MemUpload
        ensures { result ≡ record { bucket = bucket; key = key; parts = empty } }
    {
        MemUpload {
            bucket,
            key,
            parts: PartMap::make(alloc),
        }
    }

    // An upload of nothing, which takes no memory.
    pub(crate) fn empty(alloc: Global) -> MemUpload {
        MemUpload::make(
            alloc,
            Text::from(String::new(alloc)),
            Text::from(String::new(alloc)),
        )
    }

    pub fn bucket(&self) -> &str
        ensures { result.now ≡ self.now.bucket }
    {
        self.bucket.as_str()
    }

    pub fn key(&self) -> &str
        ensures { result.now ≡ self.now.key }
    {
        self.key.as_str()
    }

    /// The part of that number.
    pub fn part(&self, number: u32) -> Option<&MemPart>
        ensures { option_copied result ≡ get self.now.parts number }
    {
        self.parts.get(u64::from(number))
    }

    // The bytes of the part of that number, where it has that entity tag.
    pub(crate) fn piece(&self, number: u64, etag: &str) -> Result<&[u8], Refusal>
        ensures found { IfOk result (λ piece.
            get self.now.parts number ≡ Some (record { bytes = piece.now; etag = etag.now })) }
        ensures willing { (part : StoredPart) → get self.now.parts number ≡ Some part → part.etag ≡ etag.now →
            IsOk result }
        ensures refused { result ≡ Err Refusal.PreconditionFailed → ⊥ }
    {
        match self.parts.get(number) {
            Some(part) if part.etag() == etag => Ok(part.bytes()),
            _ => Err(Refusal::InvalidPart),
        }
    }

    /// Puts a part at a number, in the place of one that is there.
    pub fn put_part(&mut self, number: u32, part: MemPart) -> Result<(), OutOfMemory>
        ensures put { OnOk result
            (self.new ≡ record self.old { parts = insert self.old.parts number part }) }
        ensures same { OnErr result (self.new ≡ self.old) }
    {
        self.parts.insert(u64::from(number), part)
    }
}

/// How an upload ended: completed by a list of entity tags, or aborted.
#[derive(Drop)]
pub struct MemEnding {
    etags: Option<Vec<Text>>,
}

impl Model for MemEnding {
    ghost use Rattle.std.specs.Prelude.{option_map};
    ghost use Rattle.s3_service.specs.ServiceState.{Ended};
    ghost use Rattle.object_table.specs.Codes.{ended_code};
    ghost use Rattle.object_table.specs.Endings.{ended_of};

    ghost Value = { Ended };

    ghost coded = { ended_code };

    ghost view = { λ e. ended_of (option_map (λ etags. etags.items) e.etags) };
}

impl MemEnding {
    ghost use Rattle.s3_service.specs.ServiceState.{CompletedBy, Aborted};

    pub fn completed(etags: Vec<Text>) -> MemEnding
        ensures { result ≡ CompletedBy etags.items }
    {
        MemEnding { etags: Some(etags) }
    }

    /// Whether it was completed by this list.
    pub fn is_completed_by(&self, etags: &[Text]) -> bool
        ensures { result ≡ true ↔ self.now ≡ CompletedBy etags.now }
    {
        match &self.etags {
            Some(kept) => are_same(kept, etags),
            None => false,
        }
    }

    pub fn aborted() -> MemEnding
        ensures { result ≡ Aborted }
    {
        MemEnding { etags: None }
    }
}
