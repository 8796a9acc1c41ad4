//! Answers to requests that were served or refused.

ghost use Rattle.std.specs.Prelude.{◌≡◌, [], IfOk, IfSome, Some, None};
ghost use Rattle.service_answers.specs.Statuses.{body_of, got_status, length_of, refusal_status, success_status};

use crate::answer::Answer;
use crate::documents::{about_object, code_of, copied, error, status_of};
use crate::gained::{FoundObject, Gained, GotObject};
use crate::listing_answers::{buckets, page};
use crate::times::header_time;
use object_table::{ObjectTable, Refusal};
use s3_model::{Ask, OutOfMemory, Text};
use std::alloc::{AllocError, Global};

// An answer without a body that states an entity tag.
fn tagged(alloc: Global, status: u16, etag: &str) -> Result<Answer, OutOfMemory>
    ensures status { IfOk result (λ answer. answer.status ≡ status) }
    ensures body { IfOk result (λ answer. answer.body.items ≡ []) }
    ensures length { IfOk result (λ answer. answer.length ≡ None) }
{
    let mut answer = Answer::empty(alloc, status);
    answer.add_line("etag", etag)?;
    Ok(answer)
}

// The same with a time.
fn described(alloc: Global, status: u16, etag: &str, micros: u64) -> Result<Answer, OutOfMemory>
    ensures status { IfOk result (λ answer. answer.status ≡ status) }
    ensures body { IfOk result (λ answer. answer.body.items ≡ []) }
    ensures length { IfOk result (λ answer. answer.length ≡ None) }
{
    let mut answer = tagged(alloc, status, etag)?;
    let time = header_time(alloc, micros)?;
    answer.add_line("last-modified", time.as_str())?;
    Ok(answer)
}

fn found(alloc: Global, object: &FoundObject) -> Result<Answer, OutOfMemory>
    ensures status { IfOk result (λ answer. answer.status ≡ 200) }
    ensures body { IfOk result (λ answer. answer.body.items ≡ []) }
    ensures length { IfOk result (λ answer. answer.length ≡ Some object.now.size) }
{
    let mut answer = described(alloc, 200, object.etag.as_str(), object.micros)?;
    answer.length = Some(object.size);
    Ok(answer)
}

// The header line of a range and the size of the object, where there is one.
fn add_range_line(answer: &mut Answer, range: Option<(u64, u64, u64)>) -> Result<(), AllocError>
    ensures status { answer.new.status ≡ answer.old.status }
    ensures body { answer.new.body ≡ answer.old.body }
    ensures length { answer.new.length ≡ answer.old.length }
{
    match range {
        Some((first, last, size)) => {
            write!(
                answer.lines,
                "content-range: bytes {first}-{last}/{size}\r\n"
            )
        }
        None => Ok(()),
    }
}

// The status of the answer to a Get: that of a range, where there is one.
fn status_got(range: Option<(u64, u64, u64)>) -> u16
    ensures { result ≡ got_status range }
{
    if range.is_some() { 206 } else { 200 }
}

// The answer to a Get, whose body is a copy of the bytes.
fn got(alloc: Global, object: &GotObject) -> Result<Answer, OutOfMemory>
    ensures status { IfOk result (λ answer. answer.status ≡ got_status object.now.range) }
    ensures body { IfOk result (λ answer. answer.body.items ≡ object.now.bytes.items) }
    ensures length { IfOk result (λ answer. answer.length ≡ None) }
{
    let status = status_got(object.range);
    let mut answer = described(alloc, status, object.etag.as_str(), object.micros)?;
    add_range_line(&mut answer, object.range)?;
    answer.body = object.bytes.as_slice().to_vec(alloc)?;
    Ok(answer)
}

// The names of the object that a request is about.
fn names_of(ask: &Ask) -> (&str, &str) {
    match ask {
        Ask::Put { bucket, key, .. }
        | Ask::Copy { bucket, key, .. }
        | Ask::Create { bucket, key, .. }
        | Ask::Complete { bucket, key, .. } => (bucket.as_str(), key.as_str()),
        Ask::List { bucket, .. } => (bucket.as_str(), ""),
        _ => ("", ""),
    }
}

// The entity tag of the object there.
fn etag_at<'a>(table: &'a ObjectTable, bucket: &str, key: &str) -> &'a str {
    match table.object(bucket, key) {
        Some(object) => object.etag(),
        None => "",
    }
}

// The document of an answer that has one.
fn document_of(
    alloc: Global,
    table: &ObjectTable,
    micros: u64,
    ask: &Ask,
    gained: &Gained,
) -> Result<String, OutOfMemory> {
    let (bucket, key) = names_of(ask);
    match gained {
        Gained::Copied => {
            let etag = etag_at(table, bucket, key);
            copied(alloc, "CopyObjectResult", micros, etag)
        }
        Gained::PartCopied(etag) => copied(alloc, "CopyPartResult", micros, etag.as_str()),
        Gained::Created(id) => {
            let root = "InitiateMultipartUploadResult";
            about_object(alloc, root, bucket, key, "UploadId", id.as_str())
        }
        Gained::Completed => {
            let (root, etag) = ("CompleteMultipartUploadResult", etag_at(table, bucket, key));
            about_object(alloc, root, bucket, key, "ETag", etag)
        }
        Gained::Listed(listed) => page(alloc, bucket, listed),
        Gained::Buckets(entries) => buckets(alloc, entries.as_slice()),
        _ => Ok(String::new(alloc)),
    }
}

// The answer to a Put.
fn stored(alloc: Global, table: &ObjectTable, ask: &Ask) -> Result<Answer, OutOfMemory>
    ensures status { IfOk result (λ answer. answer.status ≡ 200) }
    ensures body { IfOk result (λ answer. answer.body.items ≡ []) }
    ensures length { IfOk result (λ answer. answer.length ≡ None) }
{
    let (bucket, key) = names_of(ask);
    tagged(alloc, 200, etag_at(table, bucket, key))
}

// An answer with a document.
fn documented(
    alloc: Global,
    table: &ObjectTable,
    micros: u64,
    ask: &Ask,
    gained: &Gained,
) -> Result<Answer, OutOfMemory>
    ensures status { IfOk result (λ answer. answer.status ≡ 200) }
    ensures length { IfOk result (λ answer. answer.length ≡ None) }
{
    let document = document_of(alloc, table, micros, ask, gained)?;
    Ok(Answer::document(alloc, 200, document))
}

/// The answer to a request that was served and gained this. `table` is what stands since, and `micros` the time.
pub fn answer_of(
    alloc: Global,
    table: &ObjectTable,
    micros: u64,
    ask: &Ask,
    gained: &Gained,
) -> Result<Answer, OutOfMemory>
    ensures status { IfOk result (λ answer. answer.status ≡ success_status gained.now) }
    ensures body { IfOk result (λ answer. IfSome (body_of gained.now) (λ body. answer.body.items ≡ body)) }
    ensures length { IfOk result (λ answer. answer.length ≡ length_of gained.now) }
{
    match gained {
        Gained::Found(object) => found(alloc, object),
        Gained::Got(object) => got(alloc, object),
        Gained::Gone => Ok(Answer::empty(alloc, 204)),
        Gained::PartStored(etag) => tagged(alloc, 200, etag.as_str()),
        Gained::Stored => stored(alloc, table, ask),
        _ => documented(alloc, table, micros, ask, gained),
    }
}

/// The answer that refuses, with an Error document.
pub fn refusal(alloc: Global, why: Refusal) -> Result<Answer, OutOfMemory>
    ensures { IfOk result (λ answer. answer.status ≡ refusal_status why) }
{
    let document = error(alloc, code_of(why), "The request was refused")?;
    Ok(Answer::document(alloc, status_of(why), document))
}

/// The answer to what is no request of the service.
pub fn not_understood(alloc: Global) -> Result<Answer, OutOfMemory>
    ensures { IfOk result (λ answer. answer.status ≡ 501) }
{
    let document = error(alloc, "NotImplemented", "The request is not understood")?;
    Ok(Answer::document(alloc, 501, document))
}
