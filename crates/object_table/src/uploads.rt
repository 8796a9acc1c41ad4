//! Uploads in parts.

ghost use Rattle.std.specs.Prelude.{
  ◌≡◌,
  ◌↔◌,
  ◌⊎◌,
  ◌≤◌,
  ℕ,
  List,
  Some,
  None,
  Err,
  OnOk,
  OnErr,
  IfOk,
  IsOk,
  IsSome,
  IsNone,
  flat_map,
  length,
  true,
};
ghost use Rattle.std.specs.FinMap.{empty, get, insert};
ghost use Rattle.object_table.specs.Assembly.{Joined};
ghost use Rattle.object_table.specs.Refused.{IsNotRefused};
ghost use Rattle.s3_service.specs.ServiceState.{
  CompletedBy,
  HasBucket,
  Object,
  State,
  StoredPart,
  Upload,
  object_at,
  with_ended,
  with_upload,
};
ghost use Rattle.s3_service.specs.Serves.{
  Aborts,
  AllButLastHave,
  Assembles,
  Completes,
  CopiesPart,
  Creates,
  IsOpen,
  IsThere,
  IsVacant,
  Joins,
  JoinsAgain,
  LiesWithin,
  StoresObject,
  StoresPart,
};

use crate::fault::{Refusal, TableFault};
use crate::object::{MemObject, MemPart};
use crate::table::{ObjectTable, Source, put_object};
use crate::upload::{MemEnding, MemUpload};
use s3_model::{Limits, OutOfMemory, Text};
use std::alloc::Global;
use std::mem;
use text_maps::TextMap;

// Puts a part into an upload that is there.
fn put_part(
    uploads: &mut TextMap<MemUpload>,
    alloc: Global,
    id: &str,
    number: u32,
    part: MemPart,
) -> Result<(), OutOfMemory>
    requires { IsSome (get uploads.old id.now) }
    ensures put { OnOk result ((upload : Upload) → get uploads.old id.now ≡ Some upload →
        uploads.new ≡ insert uploads.old id.now (record upload { parts = insert upload.parts number part })) }
    ensures same { OnErr result (uploads.new ≡ uploads.old) }
{
    let Some(mut upload) = uploads.replace(id, MemUpload::empty(alloc)) else {
        unreachable!();
    };
    match upload.put_part(number, part) {
        Ok(()) => {
            mem::drop(uploads.replace(id, upload));
            Ok(())
        }
        Err(OutOfMemory) => {
            mem::drop(uploads.replace(id, upload));
            Err(OutOfMemory)
        }
    }
}

// An upload of an object without parts.
fn upload_of(alloc: Global, bucket: &str, key: &str) -> Result<MemUpload, OutOfMemory>
    ensures { IfOk result (λ upload. upload ≡ record { bucket = bucket.now; key = key.now; parts = empty }) }
{
    let bucket = Text::of(alloc, bucket)?;
    let key = Text::of(alloc, key)?;
    Ok(MemUpload::make(alloc, bucket, key))
}

// Copies of texts.
fn copies_of(alloc: Global, texts: &[Text]) -> Result<Vec<Text>, OutOfMemory>
    ensures { IfOk result (λ copies. copies.items ≡ texts.now) }
{
    let mut copies = Vec::with_capacity(alloc, texts.len())?;
    for text in texts {
        copies.push(text.copy()?)?;
    }
    Ok(copies)
}

// The bytes of the parts in order, each with its entity tag. All but the last have at least so many bytes.
fn assembled(
    alloc: Global,
    least: u64,
    upload: &MemUpload,
    etags: &[Text],
) -> Result<Vec<u8>, TableFault>
    ensures joined { IfOk result (λ bytes. (last : ℕ) × Joined upload.now least etags.now bytes.items last) }
    ensures willing { (pieces : List (List ℕ)) → Assembles upload.now 1 etags.now pieces →
        AllButLastHave least pieces → IsNotRefused result }
    ensures refused { result ≡ Err (TableFault.Refused Refusal.PreconditionFailed) → ⊥ }
{
    let mut bytes = Vec::new(alloc);
    let mut last = least;
    for (place, etag) in etags.iter().enumerate() {
        let piece = upload.piece(place as u64 + 1, etag.as_str())?;
        if last < least {
            return Err(TableFault::Refused(Refusal::EntityTooSmall));
        }
        bytes.extend_from_slice(piece)?;
        last = piece.len() as u64;
    }
    Ok(bytes)
}

impl ObjectTable {
    // A name that no upload has or had. Where none is left, memory ran out.
    fn new_id(&mut self, alloc: Global) -> Result<Text, OutOfMemory>
        ensures same { self.new ≡ self.old }
        ensures open { IfOk result (λ id. IsNone (get self.old.uploads id)) }
        ensures ended { IfOk result (λ id. IsNone (get self.old.ended id)) }
    {
        let id = self.new_name(alloc, "upload")?;
        if self.uploads.has(id.as_str()) || self.ended.has(id.as_str()) {
            return Err(OutOfMemory);
        }
        Ok(id)
    }

    // The upload, where it is open under this bucket and key.
    fn open(&self, bucket: &str, key: &str, id: &str) -> Result<&MemUpload, Refusal>
        ensures open { IfOk result (λ upload. IsOpen self.now id.now bucket.now key.now upload.now) }
        ensures bucket { OnOk result (HasBucket self.now bucket.now) }
        ensures apart { OnOk result (IsNone (get self.now.ended id.now)) }
        ensures willing { (upload : Upload) → IsOpen self.now id.now bucket.now key.now upload → IsOk result }
        ensures refused { result ≡ Err Refusal.PreconditionFailed → ⊥ }
    {
        let Some(upload) = self.uploads.get(id) else {
            return Err(Refusal::NoSuchUpload);
        };
        if upload.bucket() == bucket && upload.key() == key {
            Ok(upload)
        } else {
            Err(Refusal::NoSuchUpload)
        }
    }

    // Adds an upload, whose id is none that ended.
    fn begin(&mut self, alloc: Global, id: &str, upload: MemUpload) -> Result<(), OutOfMemory>
        requires bucket { HasBucket self.old upload.bucket }
        requires apart { IsNone (get self.old.ended id.now) }
        ensures begun { OnOk result (self.new ≡ with_upload self.old id.now upload) }
        ensures same { OnErr result (self.new ≡ self.old) }
    {
        self.uploads.insert(alloc, id, upload)
    }

    /// Begins an upload without parts, under a new id.
    pub fn create(&mut self, alloc: Global, bucket: &str, key: &str) -> Result<Text, TableFault>
        ensures created { IfOk result (λ id. Creates self.old bucket.now key.now id self.new) }
        ensures same { OnErr result (self.new ≡ self.old) }
        ensures willing { HasBucket self.old bucket.now → IsNotRefused result }
    {
        if !self.has_bucket(bucket) {
            return Err(TableFault::Refused(Refusal::NoSuchBucket));
        }
        let id = self.new_id(alloc)?;
        let upload = upload_of(alloc, bucket, key)?;
        self.begin(alloc, id.as_str(), upload)?;
        Ok(id)
    }

    /// Puts a part, under a new entity tag.
    pub fn put_part(
        &mut self,
        alloc: Global,
        bucket: &str,
        key: &str,
        id: &str,
        number: u32,
        bytes: Vec<u8>,
    ) -> Result<Text, TableFault>
        ensures stored { IfOk result (λ etag.
            StoresPart self.old bucket.now key.now id.now number bytes.items etag self.new) }
        ensures same { OnErr result (self.new ≡ self.old) }
        ensures willing { (upload : Upload) → IsOpen self.old id.now bucket.now key.now upload → IsNotRefused result }
    {
        self.open(bucket, key, id)?;
        let etag = self.new_etag(alloc)?;
        let part = MemPart::new(bytes, etag.copy()?);
        put_part(&mut self.uploads, alloc, id, number, part)?;
        Ok(etag)
    }

    /// Puts a copy of a range of an object as a part, under a new entity tag.
    pub fn copy_part(
        &mut self,
        alloc: Global,
        bucket: &str,
        key: &str,
        id: &str,
        number: u32,
        source: Source<'_>,
        range: (u64, u64),
    ) -> Result<Text, TableFault>
        ensures stored { IfOk result (λ etag. CopiesPart self.old bucket.now key.now id.now number
            source.entry.bucket.now source.entry.key.now source.entry.etag.now range etag self.new) }
        ensures same { OnErr result (self.new ≡ self.old) }
        ensures willing { (etag : List ℕ) (new : State) → CopiesPart self.old bucket.now key.now id.now number
            source.entry.bucket.now source.entry.key.now source.entry.etag.now range etag new → IsNotRefused result }
    {
        self.open(bucket, key, id)?;
        let object = self.find(source.bucket, source.key, source.etag)?;
        let Some(piece) = object.within(range) else {
            return Err(TableFault::Refused(Refusal::InvalidRange));
        };
        let bytes = piece.to_vec(alloc)?;
        self.put_part(alloc, bucket, key, id, number, bytes)
    }

    /// Makes an object of the parts with these entity tags, in order, and ends the upload. An upload that ended with
    /// them already is answered so again. A fresh object is made only where there is none, and this is looked at first.
    pub fn complete(
        &mut self,
        alloc: Global,
        limits: &Limits,
        bucket: &str,
        key: &str,
        id: &str,
        etags: &[Text],
        fresh: bool,
        micros: u64,
    ) -> Result<(), TableFault>
        ensures joined { OnOk result (Joins limits.now self.old bucket.now key.now id.now etags.now fresh self.new
            ⊎ JoinsAgain self.old id.now etags.now self.new) }
        ensures same { OnErr result (self.new ≡ self.old) }
        ensures willing { (new : State) → Joins limits.now self.old bucket.now key.now id.now etags.now fresh new →
            IsNotRefused result }
        ensures again { (new : State) → JoinsAgain self.old id.now etags.now new → IsOk result }
        ensures taken { result ≡ Err (TableFault.Refused Refusal.PreconditionFailed) →
            IsSome (object_at self.old bucket.now key.now) }
        ensures kept { (why : Refusal) → result ≡ Err (TableFault.Refused why) → fresh ≡ true →
            IsSome (object_at self.old bucket.now key.now) → why ≡ Refusal.PreconditionFailed }
    {
        if self.is_completed_by(id, etags) {
            return Ok(());
        }
        let bytes = self.joined(alloc, limits, bucket, key, id, etags, fresh)?;
        self.join(alloc, bucket, key, id, etags, bytes, micros)?;
        Ok(())
    }

    // The bytes of the object that an open upload makes.
    fn joined(
        &self,
        alloc: Global,
        limits: &Limits,
        bucket: &str,
        key: &str,
        id: &str,
        etags: &[Text],
        fresh: bool,
    ) -> Result<Vec<u8>, TableFault>
        ensures bucket { OnOk result (HasBucket self.now bucket.now) }
        ensures apart { OnOk result (IsNone (get self.now.ended id.now)) }
        ensures vacant { OnOk result (IsVacant fresh self.now bucket.now key.now) }
        ensures bytes { IfOk result (λ bytes. (upload : Upload) × IsOpen self.now id.now bucket.now key.now upload
            × Completes limits.now upload etags.now bytes.items) }
        ensures willing { (upload : Upload) (bytes : List ℕ) → IsOpen self.now id.now bucket.now key.now upload →
            IsVacant fresh self.now bucket.now key.now → Completes limits.now upload etags.now bytes →
            IsNotRefused result }
        ensures taken { result ≡ Err (TableFault.Refused Refusal.PreconditionFailed) →
            IsSome (object_at self.now bucket.now key.now) }
        ensures kept { (why : Refusal) → result ≡ Err (TableFault.Refused why) → fresh ≡ true →
            IsSome (object_at self.now bucket.now key.now) → why ≡ Refusal.PreconditionFailed }
    {
        if fresh && self.object(bucket, key).is_some() {
            return Err(TableFault::Refused(Refusal::PreconditionFailed));
        }
        if etags.is_empty() {
            return Err(TableFault::Refused(Refusal::InvalidPart));
        }
        let upload = self.open(bucket, key, id)?;
        assembled(alloc, limits.min_part, upload, etags)
    }

    // Whether the upload ended with this list.
    fn is_completed_by(&self, id: &str, etags: &[Text]) -> bool
        ensures { result ≡ true ↔ get self.now.ended id.now ≡ Some (CompletedBy etags.now) }
    {
        match self.ended.get(id) {
            Some(ending) => ending.is_completed_by(etags),
            None => false,
        }
    }

    // Puts the bytes of an open upload, and ends it.
    fn join(
        &mut self,
        alloc: Global,
        bucket: &str,
        key: &str,
        id: &str,
        etags: &[Text],
        bytes: Vec<u8>,
        micros: u64,
    ) -> Result<(), OutOfMemory>
        requires bucket { HasBucket self.old bucket.now }
        requires apart { IsNone (get self.old.ended id.now) }
        ensures joined { OnOk result ((mid : State) × StoresObject self.old bucket.now key.now bytes.items mid
            × (self.new ≡ with_ended mid id.now (CompletedBy etags.now))) }
        ensures same { OnErr result (self.new ≡ self.old) }
    {
        let object = MemObject::new(bytes, self.new_etag(alloc)?, micros);
        let ending = MemEnding::completed(copies_of(alloc, etags)?);
        self.ended.insert(alloc, id, ending)?;
        match put_object(&mut self.objects, alloc, bucket, key, object) {
            Ok(()) => {
                mem::drop(self.uploads.remove(id));
                Ok(())
            }
            Err(OutOfMemory) => {
                mem::drop(self.ended.remove(id));
                Err(OutOfMemory)
            }
        }
    }

    /// Ends an upload, whose parts go.
    pub fn abort(
        &mut self,
        alloc: Global,
        bucket: &str,
        key: &str,
        id: &str,
    ) -> Result<(), TableFault>
        ensures aborted { OnOk result (Aborts self.old bucket.now key.now id.now self.new) }
        ensures same { OnErr result (self.new ≡ self.old) }
        ensures willing { (upload : Upload) → IsOpen self.old id.now bucket.now key.now upload → IsNotRefused result }
    {
        self.open(bucket, key, id)?;
        self.ended.insert(alloc, id, MemEnding::aborted())?;
        mem::drop(self.uploads.remove(id));
        Ok(())
    }
}
