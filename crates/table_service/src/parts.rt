//! What a service in memory does for parts of uploads.

ghost use Rattle.std.specs.Prelude.{◌≡◌, List, ℕ, IfOk, OnErr};
ghost use Rattle.object_table.specs.Refused.{IsNotRefused};
ghost use Rattle.s3_model.specs.declared.answers.Reply.{Reply};
ghost use Rattle.s3_model.specs.declared.settings.Limits.{Limits};
ghost use Rattle.s3_service.specs.ServiceState.{State, Upload};
ghost use Rattle.s3_service.specs.Serves.{IsOpen, StoresPart, Succeeds};
ghost use Rattle.table_service.specs.Served.{IsForPart, IsServed};

use object_table::{ObjectTable, Source, TableFault};
use s3_model::{Ask, Text};
use service_answers::Gained;
use std::alloc::Global;

// Puts the body as a part, under a new entity tag.
fn put_part(
    alloc: Global,
    table: &mut ObjectTable,
    bucket: &str,
    key: &str,
    id: &str,
    number: u32,
    body: &[u8],
) -> Result<Text, TableFault>
    ensures stored { IfOk result (λ etag.
        StoresPart table.old bucket.now key.now id.now number body.now etag table.new) }
    ensures same { OnErr result (table.new ≡ table.old) }
    ensures willing { (upload : Upload) → IsOpen table.old id.now bucket.now key.now upload → IsNotRefused result }
{
    let Ok(bytes) = body.to_vec(alloc) else {
        return Err(TableFault::Memory);
    };
    table.put_part(alloc, bucket, key, id, number, bytes)
}

/// Serves a request that puts a part.
pub(crate) fn serve_part(
    alloc: Global,
    table: &mut ObjectTable,
    ask: &Ask,
    body: &[u8],
) -> Result<Gained, TableFault>
    requires { IsForPart ask.now }
    ensures served { IfOk result (λ gained. (limits : Limits) →
        IsServed limits table.old ask.now body.now gained table.new) }
    ensures same { OnErr result (table.new ≡ table.old) }
    ensures willing { (limits : Limits) (answered : Reply) (bytes : List ℕ) (new : State) →
        Succeeds limits table.old ask.now body.now answered bytes new → IsNotRefused result }
{
    match ask {
        Ask::Part {
            bucket,
            key,
            upload,
            number,
        } => {
            let (bucket, key, id) = (bucket.as_str(), key.as_str(), upload.as_str());
            let etag = put_part(alloc, table, bucket, key, id, *number, body)?;
            Ok(Gained::PartStored(etag))
        }
        Ask::PartCopy {
            bucket,
            key,
            upload,
            number,
            from_bucket,
            from_key,
            etag,
            range,
        } => {
            let source = Source {
                bucket: from_bucket.as_str(),
                key: from_key.as_str(),
                etag: etag.as_str(),
            };
            let (bucket, key, id) = (bucket.as_str(), key.as_str(), upload.as_str());
            let etag = table.copy_part(alloc, bucket, key, id, *number, source, *range)?;
            Ok(Gained::PartCopied(etag))
        }
        _ => unreachable!(),
    }
}
