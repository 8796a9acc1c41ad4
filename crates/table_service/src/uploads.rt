//! What a service in memory does for uploads in parts.

ghost use Rattle.std.specs.Prelude.{◌≡◌, List, ℕ, IfOk, OnErr, Err};
ghost use Rattle.object_table.specs.Refused.{IsNotRefused};
ghost use Rattle.s3_service.specs.Willing.{SaysIfThere};
ghost use Rattle.s3_model.specs.declared.answers.Reply.{Reply};
ghost use Rattle.s3_service.specs.ServiceState.{State};
ghost use Rattle.s3_service.specs.Serves.{MayRefuse, Succeeds};
ghost use Rattle.service_answers.specs.Statuses.{refusal_code};
ghost use Rattle.table_service.specs.Served.{IsForUpload, IsServed};

use crate::parts::serve_part;
use crate::requests::Manner;
use object_table::{ObjectTable, Refusal, TableFault};
use s3_model::Ask;
use service_answers::Gained;
use std::alloc::Global;

/// Serves a request for an upload in parts.
pub(crate) fn serve_upload(
    alloc: Global,
    table: &mut ObjectTable,
    manner: &Manner,
    ask: &Ask,
    body: &[u8],
) -> Result<Gained, TableFault>
    requires { IsForUpload ask.now }
    ensures served { IfOk result (λ gained.
        IsServed manner.now.limits table.old ask.now body.now gained table.new) }
    ensures same { OnErr result (table.new ≡ table.old) }
    ensures taken { result ≡ Err (TableFault.Refused Refusal.PreconditionFailed) →
        MayRefuse table.old ask.now (refusal_code Refusal.PreconditionFailed) }
    ensures willing { (answered : Reply) (bytes : List ℕ) (new : State) →
        Succeeds manner.now.limits table.old ask.now body.now answered bytes new → IsNotRefused result }
    ensures says { (why : Refusal) → result ≡ Err (TableFault.Refused why) →
        SaysIfThere table.old ask.now (refusal_code why) }
{
    match ask {
        Ask::Create { bucket, key, .. } => {
            let id = table.create(alloc, bucket.as_str(), key.as_str())?;
            Ok(Gained::Created(id))
        }
        Ask::Complete {
            bucket,
            key,
            upload,
            etags,
            fresh,
        } => {
            table.complete(
                alloc,
                &manner.limits,
                bucket.as_str(),
                key.as_str(),
                upload.as_str(),
                etags.as_slice(),
                *fresh,
                manner.micros,
            )?;
            Ok(Gained::Completed)
        }
        Ask::Abort {
            bucket,
            key,
            upload,
        } => {
            table.abort(alloc, bucket.as_str(), key.as_str(), upload.as_str())?;
            Ok(Gained::Gone)
        }
        Ask::Part { .. } | Ask::PartCopy { .. } => serve_part(alloc, table, ask, body),
        _ => unreachable!(),
    }
}
