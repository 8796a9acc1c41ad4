//! What a service in memory does for requests that put an object or take one away.

ghost use Rattle.std.specs.Prelude.{◌≡◌, ℕ, List, IfOk, OnOk, OnErr, IsSome, Err, true};
ghost use Rattle.object_table.specs.Refused.{IsNotRefused};
ghost use Rattle.s3_service.specs.Willing.{SaysIfThere};
ghost use Rattle.s3_model.specs.declared.answers.Reply.{Reply};
ghost use Rattle.s3_service.specs.ServiceState.{HasBucket, State, object_at};
ghost use Rattle.s3_service.specs.Serves.{IsVacant, MayRefuse, Puts, Succeeds};
ghost use Rattle.service_answers.specs.Statuses.{refusal_code};
ghost use Rattle.table_service.specs.Served.{IsChange, IsServed};

use crate::requests::Manner;
use object_table::{ObjectTable, Refusal, Source, TableFault};
use s3_model::Ask;
use service_answers::Gained;
use std::alloc::Global;

// Puts the body as an object; a fresh one only where there is none.
fn put(
    alloc: Global,
    table: &mut ObjectTable,
    bucket: &str,
    key: &str,
    fresh: bool,
    body: &[u8],
    micros: u64,
) -> Result<(), TableFault>
    ensures put { OnOk result (Puts table.old bucket.now key.now fresh body.now table.new) }
    ensures same { OnErr result (table.new ≡ table.old) }
    ensures willing { HasBucket table.old bucket.now × IsVacant fresh table.old bucket.now key.now →
        IsNotRefused result }
    ensures taken { result ≡ Err (TableFault.Refused Refusal.PreconditionFailed) →
        IsSome (object_at table.old bucket.now key.now) }
    ensures kept { (why : Refusal) → result ≡ Err (TableFault.Refused why) → fresh ≡ true →
        IsSome (object_at table.old bucket.now key.now) → why ≡ Refusal.PreconditionFailed }
{
    let bytes = body.to_vec(alloc)?;
    table.put(alloc, bucket, key, bytes, fresh, micros)
}

/// Serves a request that puts an object or takes one away.
pub(crate) fn serve_change(
    alloc: Global,
    table: &mut ObjectTable,
    manner: &Manner,
    ask: &Ask,
    body: &[u8],
) -> Result<Gained, TableFault>
    requires { IsChange ask.now }
    ensures served { IfOk result (λ gained.
        IsServed manner.now.limits table.old ask.now body.now gained table.new) }
    ensures same { OnErr result (table.new ≡ table.old) }
    ensures taken { result ≡ Err (TableFault.Refused Refusal.PreconditionFailed) →
        MayRefuse table.old ask.now (refusal_code Refusal.PreconditionFailed) }
    ensures willing { (answered : Reply) (bytes : List ℕ) (new : State) →
        Succeeds manner.now.limits table.old ask.now body.now answered bytes new → IsNotRefused result }
    ensures says { (why : Refusal) → result ≡ Err (TableFault.Refused why) →
        SaysIfThere table.old ask.now (refusal_code why) }
{
    match ask {
        Ask::Put {
            bucket,
            key,
            fresh,
            ..
        } => {
            let (bucket, key) = (bucket.as_str(), key.as_str());
            put(alloc, table, bucket, key, *fresh, body, manner.micros)?;
            Ok(Gained::Stored)
        }
        Ask::Copy {
            bucket,
            key,
            from_bucket,
            from_key,
            etag,
        } => {
            let source = Source {
                bucket: from_bucket.as_str(),
                key: from_key.as_str(),
                etag: etag.as_str(),
            };
            table.copy(alloc, bucket.as_str(), key.as_str(), source, manner.micros)?;
            Ok(Gained::Copied)
        }
        Ask::Delete { bucket, key } => {
            table.delete(alloc, bucket.as_str(), key.as_str())?;
            Ok(Gained::Gone)
        }
        _ => unreachable!(),
    }
}
