//! The list of buckets.

ghost use Rattle.std.specs.Prelude.{◌≡◌, ◌≤◌, ◌∷◌, ◌++◌, ⊤, ℕ, List, [], None, Option, Err, IfOk, OnOk, codes, length};
ghost use Rattle.s3_model.specs.declared.places.Entry.{Entry};
ghost use Rattle.s3_replies.specs.Buckets.{BucketLeft, BucketsLeft, HasBucket, HasBuckets};
ghost use Rattle.s3_replies.specs.Buckets.{HasEachBucket, IsBucketList, KnowsBucket, ListLeft};
ghost use Rattle.s3_replies.specs.Buckets.{bucket_list_table, bucket_table, buckets_table};
ghost use Rattle.reply_xml.specs.declared.elements.Element.TheVariants as elements;
ghost use Rattle.reply_xml.specs.Tables.{IsFound};
ghost use Rattle.reply_xml.specs.Contents.{Content};
ghost use Rattle.reply_xml.specs.Breaks.{Breaks, IfBroken};
ghost use Rattle.reply_xml.specs.Faults.{IfRefused, IsFault};
ghost use Rattle.reply_xml.specs.Places.{BeginsOtherwise, HasBytesBehind};

use reply_xml::{Child, DocFault, Element, FormedText, Parts, Reader, Time, is_the, read_document};
use s3_model::{Entries, Entry, Text};
use std::alloc::Global;

/// A bucket's name, and when it was made.
#[derive(Drop)]
struct BucketFields {
    name: Option<Text>,
    created: Option<u64>,
}

impl Parts for BucketFields {
    type Whole = (Text, u64);

    ghost left = { λ s content value. BucketLeft s.name s.created content value };

    ghost table = { λ s. bucket_table };

    ghost knows = { λ s front. KnowsBucket s.name s.created front };

    fn take<'a>(&mut self, reader: &mut Reader<'a>, child: &Child<'a>) -> Result<(), DocFault> {
        if is_the(Element::Name, child.element) {
            return reader.take::<FormedText>(child, Element::Name, &mut self.name);
        }
        if is_the(Element::CreationDate, child.element) {
            return reader.take::<Time>(child, Element::CreationDate, &mut self.created);
        }
        reader.skip(child)
    }

    fn whole(self, _: Global) -> Result<(Text, u64), DocFault> {
        let BucketFields { name, created } = self;
        let Some(name) = name else {
            return Err(DocFault::Missing(Element::Name));
        };
        let Some(created) = created else {
            return Err(DocFault::Missing(Element::CreationDate));
        };
        Ok((name, created))
    }
}

/// Adds a bucket to the rows.
fn push_bucket(alloc: Global, key: Text, micros: u64, rows: &mut Entries) -> Result<(), DocFault>
    ensures items { OnOk result (rows.new.items ≡ rows.old.items ++ record { key = key; size = 0; etag = []; micros = micros } ∷ []) }
    ensures memory { IfRefused result ⊥ }
    ensures unbroken { IfBroken result (λ reason. ⊥) }
{
    if rows.reserve(1).is_err() {
        return Err(DocFault::Memory);
    }
    rows.push(Entry {
        key,
        size: 0,
        etag: Text::from(String::new(alloc)),
        micros,
    });
    Ok(())
}

/// The buckets inside their element.
#[derive(Drop)]
struct Buckets {
    rows: Entries,
}

impl Parts for Buckets {
    type Whole = Entries;

    ghost left = { λ s content rows. BucketsLeft s.rows.items content rows.items };

    ghost table = { λ s. buckets_table };

    ghost knows = { λ s front. ⊤ };

    fn take<'a>(&mut self, reader: &mut Reader<'a>, child: &Child<'a>) -> Result<(), DocFault> {
        if !is_the(Element::Bucket, child.element) {
            return reader.skip(child);
        }
        let bucket = BucketFields {
            name: None,
            created: None,
        };
        let (key, micros) = reader.element(child, bucket)?;
        push_bucket(reader.alloc, key, micros, &mut self.rows)
    }

    fn whole(self, _: Global) -> Result<Entries, DocFault> {
        Ok(self.rows)
    }
}

/// The list of buckets inside the root.
#[derive(Drop)]
struct BucketList {
    found: Option<Entries>,
}

impl Parts for BucketList {
    type Whole = Entries;

    ghost left = { λ s content rows. ListLeft s.found content rows.items };

    ghost table = { λ s. bucket_list_table };

    ghost knows = { λ s front. IsFound elements.Buckets s.found front };

    fn take<'a>(&mut self, reader: &mut Reader<'a>, child: &Child<'a>) -> Result<(), DocFault> {
        if !is_the(Element::Buckets, child.element) {
            return reader.skip(child);
        }
        if self.found.is_some() {
            return Err(DocFault::Twice(Element::Buckets));
        }
        let buckets = Buckets {
            rows: Entries::make(reader.alloc),
        };
        self.found = Some(reader.element(child, buckets)?);
        Ok(())
    }

    fn whole(self, _: Global) -> Result<Entries, DocFault> {
        let BucketList { found } = self;
        match found {
            Some(rows) => Ok(rows),
            None => Err(DocFault::Missing(Element::Buckets)),
        }
    }
}

/// Reads a list of buckets. An entry has the bucket's name as its key, the time at which it was made, no size and no
/// entity tag.
pub fn read_buckets(alloc: Global, doc: &[u8]) -> Result<Entries, DocFault>
    ensures value { IfOk result (λ rows. IsBucketList doc.now rows.items) }
    ensures refused { IfRefused result ((entries : List Entry) → ¬ (IsBucketList doc.now entries)) }
    ensures broken { IfBroken result (Breaks (codes "ListAllMyBucketsResult") bucket_list_table doc.now) }
    ensures other_root { (place : ℕ) → BeginsOtherwise (codes "ListAllMyBucketsResult") doc.now place →
        result ≡ Err (DocFault.NotADocument place) }
    ensures behind { (place : ℕ) → HasBytesBehind (codes "ListAllMyBucketsResult") HasBuckets doc.now place →
        IsFault result (DocFault.NotADocument place) }
{
    read_document(
        alloc,
        doc,
        "ListAllMyBucketsResult",
        BucketList { found: None },
    )
}
