//! What a service holds, and its objects.

ghost use Rattle.std.specs.Prelude.{
  ◌≡◌,
  [],
  ◌↔◌,
  ◌<◌,
  ◌≤◌,
  OnOk,
  OnErr,
  IfOk,
  IsOk,
  IsSome,
  IsTrue,
  Some,
  None,
  Err,
  length,
  true,
};
ghost use Rattle.std.specs.Option.{is_some, option_copied, unwrap_or};
ghost use Rattle.std.specs.FinMap.{empty, get, insert, remove};
ghost use Rattle.object_table.specs.Refused.{IsNotRefused};
ghost use Rattle.s3_service.specs.ServiceState.{HasBucket, Object, State, object_at};
ghost use Rattle.s3_service.specs.Serves.{
  Copies,
  Deletes,
  IsThere,
  IsVacant,
  LiesWithin,
  Puts,
  StoresObject,
  bytes_within,
};

use crate::fault::{Refusal, TableFault};
use crate::object::MemObject;
use crate::upload::{MemEnding, MemUpload};
use s3_model::{OutOfMemory, Text};
use std::alloc::Global;
use std::marker::Model;
use std::mem;
use text_maps::TextMap;

/// Buckets with their objects, uploads in parts, and tokens of listings, as an S3 service holds them. Each object and
/// each part has an entity tag of its own.
#[derive(Drop)]
pub struct ObjectTable {
    pub(crate) objects: TextMap<TextMap<MemObject>>,
    pub(crate) uploads: TextMap<MemUpload>,
    pub(crate) ended: TextMap<MemEnding>,
    pub(crate) tokens: TextMap<Text>,
    made: u64,
}

impl Model for ObjectTable {
    ghost use Rattle.s3_service.specs.ServiceState.{State};
    ghost use Rattle.object_table.specs.Codes.{state_code};
    ghost use Rattle.object_table.specs.Soundness.{AreSound};

    ghost Value = { State };

    ghost coded = { state_code };

    ghost view = { λ t. record { objects = t.objects; uploads = t.uploads; ended = t.ended; tokens = t.tokens } };

    ghost invariant = { λ t. AreSound t.objects t.uploads t.ended };
}

/// What is copied: the object there, under an entity tag.
#[derive(Clone, Copy)]
pub struct Source<'a> {
    pub bucket: &'a str,
    pub key: &'a str,
    pub etag: &'a str,
}

// Puts an object into a bucket that is there.
pub(crate) fn put_object(
    objects: &mut TextMap<TextMap<MemObject>>,
    alloc: Global,
    bucket: &str,
    key: &str,
    object: MemObject,
) -> Result<(), OutOfMemory>
    requires { IsSome (get objects.old bucket.now) }
    ensures put { OnOk result (objects.new ≡ insert objects.old bucket.now
        (insert (unwrap_or (get objects.old bucket.now) empty) key.now object)) }
    ensures same { OnErr result (objects.new ≡ objects.old) }
{
    let Some(mut held) = objects.replace(bucket, TextMap::make(alloc)) else {
        unreachable!();
    };
    match held.insert(alloc, key, object) {
        Ok(()) => {
            mem::drop(objects.replace(bucket, held));
            Ok(())
        }
        Err(OutOfMemory) => {
            mem::drop(objects.replace(bucket, held));
            Err(OutOfMemory)
        }
    }
}

// Takes an object out of a bucket that is there.
fn take_object(objects: &mut TextMap<TextMap<MemObject>>, alloc: Global, bucket: &str, key: &str)
    requires { IsSome (get objects.old bucket.now) }
    ensures { objects.new ≡ insert objects.old bucket.now
        (remove (unwrap_or (get objects.old bucket.now) empty) key.now) }
{
    let Some(mut held) = objects.replace(bucket, TextMap::make(alloc)) else {
        unreachable!();
    };
    mem::drop(held.remove(key));
    mem::drop(objects.replace(bucket, held));
}

impl ObjectTable {
    /// No buckets, which takes no memory.
    pub fn make(alloc: Global) -> ObjectTable
        ensures { result ≡ record { objects = empty; uploads = empty; ended = empty; tokens = empty } }
    {
        ObjectTable {
            objects: TextMap::make(alloc),
            uploads: TextMap::make(alloc),
            ended: TextMap::make(alloc),
            tokens: TextMap::make(alloc),
            made: 0,
        }
    }

    /// Adds a bucket without objects, in the place of one that is there.
    pub fn add_bucket(&mut self, alloc: Global, bucket: &str) -> Result<(), OutOfMemory>
        ensures added { OnOk result
            (self.new ≡ record self.old { objects = insert self.old.objects bucket.now empty }) }
        ensures same { OnErr result (self.new ≡ self.old) }
    {
        self.objects.insert(alloc, bucket, TextMap::make(alloc))
    }

    pub fn has_bucket(&self, bucket: &str) -> bool
        ensures { result ≡ is_some (get self.now.objects bucket.now) }
    {
        self.objects.has(bucket)
    }

    /// The object there.
    pub fn object(&self, bucket: &str, key: &str) -> Option<&MemObject>
        ensures { option_copied result ≡ object_at self.now bucket.now key.now }
    {
        match self.objects.get(bucket) {
            Some(held) => held.get(key),
            None => None,
        }
    }

    // The next number, which no other entity tag, upload or token has. Where none is left, memory ran out.
    pub(crate) fn number(&mut self) -> Result<u64, OutOfMemory>
        ensures { self.new ≡ self.old }
    {
        let Some(number) = self.made.checked_add(1) else {
            return Err(OutOfMemory);
        };
        self.made = number;
        Ok(number)
    }

    // A name of that kind with the next number, as `upload-7`.
    pub(crate) fn new_name(&mut self, alloc: Global, kind: &str) -> Result<Text, OutOfMemory>
        ensures { self.new ≡ self.old }
    {
        let number = self.number()?;
        Ok(Text::from(format!(in alloc; "{kind}-{number}")?))
    }

    // An entity tag that nothing else has.
    pub(crate) fn new_etag(&mut self, alloc: Global) -> Result<Text, OutOfMemory>
        ensures { self.new ≡ self.old }
    {
        let number = self.number()?;
        let etag = format!(in alloc; "\"{number}\"")?;
        Ok(Text::from(etag))
    }

    // Puts bytes under a key, with a new entity tag.
    pub(crate) fn store(
        &mut self,
        alloc: Global,
        bucket: &str,
        key: &str,
        bytes: Vec<u8>,
        micros: u64,
    ) -> Result<(), OutOfMemory>
        requires { HasBucket self.old bucket.now }
        ensures stored { OnOk result (StoresObject self.old bucket.now key.now bytes.items self.new) }
        ensures same { OnErr result (self.new ≡ self.old) }
    {
        let etag = self.new_etag(alloc)?;
        let object = MemObject::new(bytes, etag, micros);
        put_object(&mut self.objects, alloc, bucket, key, object)
    }

    /// The object there, under that entity tag.
    pub fn find(&self, bucket: &str, key: &str, etag: &str) -> Result<&MemObject, Refusal>
        ensures there { IfOk result (λ object. IsThere self.now bucket.now key.now etag.now object.now) }
        ensures willing { (object : Object) → IsThere self.now bucket.now key.now etag.now object → IsOk result }
    {
        let Some(object) = self.object(bucket, key) else {
            return Err(if self.has_bucket(bucket) {
                Refusal::NoSuchKey
            } else {
                Refusal::NoSuchBucket
            });
        };
        if object.etag() == etag {
            Ok(object)
        } else {
            Err(Refusal::PreconditionFailed)
        }
    }

    /// Puts an object; a fresh one only where there is none.
    pub fn put(
        &mut self,
        alloc: Global,
        bucket: &str,
        key: &str,
        bytes: Vec<u8>,
        fresh: bool,
        micros: u64,
    ) -> Result<(), TableFault>
        ensures put { OnOk result (Puts self.old bucket.now key.now fresh bytes.items self.new) }
        ensures same { OnErr result (self.new ≡ self.old) }
        ensures willing { HasBucket self.old bucket.now × IsVacant fresh self.old bucket.now key.now →
            IsNotRefused result }
        ensures taken { result ≡ Err (TableFault.Refused Refusal.PreconditionFailed) →
            IsSome (object_at self.old bucket.now key.now) }
        ensures kept { (why : Refusal) → result ≡ Err (TableFault.Refused why) → fresh ≡ true →
            IsSome (object_at self.old bucket.now key.now) → why ≡ Refusal.PreconditionFailed }
    {
        if !self.has_bucket(bucket) {
            return Err(TableFault::Refused(Refusal::NoSuchBucket));
        }
        if fresh && self.object(bucket, key).is_some() {
            return Err(TableFault::Refused(Refusal::PreconditionFailed));
        }
        self.store(alloc, bucket, key, bytes, micros)?;
        Ok(())
    }

    /// Puts a copy of an object.
    pub fn copy(
        &mut self,
        alloc: Global,
        bucket: &str,
        key: &str,
        source: Source<'_>,
        micros: u64,
    ) -> Result<(), TableFault>
        ensures copied { OnOk result (Copies self.old bucket.now key.now source.entry.bucket.now
            source.entry.key.now source.entry.etag.now self.new) }
        ensures same { OnErr result (self.new ≡ self.old) }
        ensures willing { (object : Object) → IsThere self.old source.entry.bucket.now source.entry.key.now
            source.entry.etag.now object → HasBucket self.old bucket.now → IsNotRefused result }
    {
        let object = self.find(source.bucket, source.key, source.etag)?;
        let bytes = object.copy_bytes(alloc)?;
        if !self.has_bucket(bucket) {
            return Err(TableFault::Refused(Refusal::NoSuchBucket));
        }
        self.store(alloc, bucket, key, bytes, micros)?;
        Ok(())
    }

    /// Takes an object away, if there is one.
    pub fn delete(&mut self, alloc: Global, bucket: &str, key: &str) -> Result<(), Refusal>
        ensures deleted { OnOk result (Deletes self.old bucket.now key.now self.new) }
        ensures same { OnErr result (self.new ≡ self.old) }
        ensures willing { HasBucket self.old bucket.now → IsOk result }
    {
        if !self.has_bucket(bucket) {
            return Err(Refusal::NoSuchBucket);
        }
        take_object(&mut self.objects, alloc, bucket, key);
        Ok(())
    }
}
