//! What a service in memory does for requests that read an object.

ghost use Rattle.std.specs.Prelude.{◌≡◌, ℕ, List, Option, Some, None, IfOk, OnOk, length};
ghost use Rattle.std.specs.Option.{is_some};
ghost use Rattle.object_table.specs.Refused.{IsNotRefused};
ghost use Rattle.s3_service.specs.Willing.{HasRange, IsWholeObject};
ghost use Rattle.s3_model.specs.declared.answers.Reply.{Reply};
ghost use Rattle.s3_model.specs.declared.settings.Limits.{Limits};
ghost use Rattle.s3_service.specs.ServiceState.{State};
ghost use Rattle.s3_service.specs.Serves.{Finds, Gets, LiesWithin, Succeeds, bytes_within};
ghost use Rattle.service_answers.specs.Statuses.{got_status};
ghost use Rattle.table_service.specs.Served.{IsRead, IsServed, reply_of};

use object_table::{MemObject, ObjectTable, Refusal, TableFault};
use s3_model::{Ask, OutOfMemory, Text};
use service_answers::{FoundObject, Gained, GotObject};
use std::alloc::Global;

const MICROS_PER_SECOND: u64 = 1_000_000;

// The size, the entity tag and the time in whole seconds of the object there.
fn find(
    alloc: Global,
    table: &ObjectTable,
    bucket: &str,
    key: &str,
) -> Result<FoundObject, TableFault>
    ensures found { IfOk result (λ found.
        Finds table.now bucket.now key.now found.size found.etag found.micros table.now) }
    ensures willing { (size : ℕ) (etag : List ℕ) (micros : ℕ) (new : State) →
        Finds table.now bucket.now key.now size etag micros new → IsNotRefused result }
{
    let Some(object) = table.object(bucket, key) else {
        return Err(TableFault::Refused(Refusal::NoSuchKey));
    };
    Ok(FoundObject {
        size: object.bytes().len() as u64,
        etag: Text::of(alloc, object.etag())?,
        micros: object.micros() / MICROS_PER_SECOND * MICROS_PER_SECOND,
    })
}

// A copy of an object.
fn whole(alloc: Global, object: &MemObject) -> Result<GotObject, OutOfMemory>
    ensures range { IfOk result (λ got. got.range ≡ None) }
    ensures bytes { IfOk result (λ got. got.bytes.items ≡ object.now.bytes) }
{
    Ok(GotObject {
        etag: Text::of(alloc, object.etag())?,
        micros: object.micros(),
        range: None,
        bytes: object.copy_bytes(alloc)?,
    })
}

// A copy of a range of an object, which is refused where the object does not reach so far.
fn piece(alloc: Global, object: &MemObject, range: (u64, u64)) -> Result<GotObject, TableFault>
    ensures lies { OnOk result (LiesWithin range object.now.bytes) }
    ensures range { IfOk result (λ got. got.range ≡ Some (range.0, range.1, length object.now.bytes)) }
    ensures bytes { IfOk result (λ got. got.bytes.items ≡ bytes_within range object.now.bytes) }
    ensures willing { LiesWithin range object.now.bytes → IsNotRefused result }
{
    let Some(bytes) = object.within(range) else {
        return Err(TableFault::Refused(Refusal::InvalidRange));
    };
    Ok(GotObject {
        etag: Text::of(alloc, object.etag())?,
        micros: object.micros(),
        range: Some((range.0, range.1, object.bytes().len() as u64)),
        bytes: bytes.to_vec(alloc)?,
    })
}

// The bytes of the object there under that entity tag, or of that range of it.
fn get(
    alloc: Global,
    table: &ObjectTable,
    bucket: &str,
    key: &str,
    etag: &str,
    range: Option<(u64, u64)>,
) -> Result<GotObject, TableFault>
    ensures got { IfOk result (λ got. Gets table.now bucket.now key.now etag.now range (got_status got.range) got.range
        (length got.bytes.items) got.bytes.items table.now) }
    ensures ranged { IfOk result (λ got. is_some got.range ≡ is_some range) }
    ensures willing { (status : ℕ) (given : Option (ℕ × ℕ × ℕ)) (size : ℕ) (bytes : List ℕ) (new : State) →
        Gets table.now bucket.now key.now etag.now range status given size bytes new → IsNotRefused result }
{
    let object = table.find(bucket, key, etag)?;
    match range {
        Some(range) => piece(alloc, object, range),
        None => Ok(whole(alloc, object)?),
    }
}

/// Serves a request that reads an object.
pub(crate) fn serve_read(
    alloc: Global,
    table: &ObjectTable,
    ask: &Ask,
) -> Result<Gained, TableFault>
    requires { IsRead ask.now }
    ensures served { IfOk result (λ gained. (limits : Limits) (body : List ℕ) →
        IsServed limits table.now ask.now body gained table.now) }
    ensures willing { (limits : Limits) (body : List ℕ) (answered : Reply) (bytes : List ℕ) (new : State) →
        Succeeds limits table.now ask.now body answered bytes new → IsNotRefused result }
    ensures ranged { IfOk result (λ gained. HasRange ask.now → ¬ (IsWholeObject (reply_of gained))) }
{
    match ask {
        Ask::Head { bucket, key } => {
            let found = find(alloc, table, bucket.as_str(), key.as_str())?;
            Ok(Gained::Found(found))
        }
        Ask::Get {
            bucket,
            key,
            etag,
            range,
        } => {
            let (bucket, key) = (bucket.as_str(), key.as_str());
            let got = get(alloc, table, bucket, key, etag.as_str(), *range)?;
            Ok(Gained::Got(got))
        }
        _ => unreachable!(),
    }
}
