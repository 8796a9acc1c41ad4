//! What a service in memory does for what is asked.

ghost use Rattle.std.specs.Prelude.{◌≡◌, ℕ, List, IfOk, OnErr, Err};
ghost use Rattle.object_table.specs.Refused.{IsNotRefused};
ghost use Rattle.s3_service.specs.Willing.{HasRange, IsWholeObject, SaysIfThere};
ghost use Rattle.s3_model.specs.declared.answers.Reply.{Reply};
ghost use Rattle.s3_service.specs.ServiceState.{State};
ghost use Rattle.s3_service.specs.Serves.{MayRefuse, Succeeds};
ghost use Rattle.service_answers.specs.Statuses.{refusal_code};
ghost use Rattle.table_service.specs.Served.{IsServed, reply_of};

use crate::changes::serve_change;
use crate::lists::serve_list;
use crate::reads::serve_read;
use crate::uploads::serve_upload;
use object_table::{ObjectTable, Refusal, TableFault};
use s3_model::{Ask, Limits};
use service_answers::Gained;
use std::alloc::Global;

/// How a service serves: its limits, the most names of a page, and the time of what is written, in microseconds since
/// 1970.
#[derive(Clone, Copy)]
pub struct Manner {
    pub limits: Limits,
    pub page: usize,
    pub micros: u64,
}

/// Serves what is asked, where it can be: a request that could succeed is not refused. Where it is refused nothing
/// changes, and what is not to be replaced is refused with a code that says so exactly where it is there.
pub fn serve(
    alloc: Global,
    table: &mut ObjectTable,
    manner: &Manner,
    ask: &Ask,
    body: &[u8],
) -> Result<Gained, TableFault>
    ensures served { IfOk result (λ gained.
        IsServed manner.now.limits table.old ask.now body.now gained table.new) }
    ensures same { OnErr result (table.new ≡ table.old) }
    ensures taken { result ≡ Err (TableFault.Refused Refusal.PreconditionFailed) →
        MayRefuse table.old ask.now (refusal_code Refusal.PreconditionFailed) }
    ensures willing { (answered : Reply) (bytes : List ℕ) (new : State) →
        Succeeds manner.now.limits table.old ask.now body.now answered bytes new → IsNotRefused result }
    ensures says { (why : Refusal) → result ≡ Err (TableFault.Refused why) →
        SaysIfThere table.old ask.now (refusal_code why) }
    ensures ranged { IfOk result (λ gained. HasRange ask.now → ¬ (IsWholeObject (reply_of gained))) }
{
    match ask {
        Ask::Head { .. } | Ask::Get { .. } => serve_read(alloc, table, ask),
        Ask::List { .. } | Ask::Buckets => serve_list(alloc, table, manner, ask),
        Ask::Put { .. } | Ask::Copy { .. } | Ask::Delete { .. } => {
            serve_change(alloc, table, manner, ask, body)
        }
        _ => serve_upload(alloc, table, manner, ask, body),
    }
}
