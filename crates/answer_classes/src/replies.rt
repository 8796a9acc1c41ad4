//! Answers whose document says how the request went.

ghost use Rattle.std.specs.Prelude.{◌≡◌, false, ◌↔◌, ℕ, List, IfOk, IsTrue, OnOk};
ghost use Rattle.s3_model.specs.declared.answers.Reply.{Reply};
ghost use Rattle.s3_model.specs.Classes.{IsTwoHundred, MayFailLate};
ghost use Rattle.reply_xml.specs.Faults.{IfRefused};
ghost use Rattle.answer_classes.specs.Classifying.{IsClassed, NeedsDocument};
ghost use Rattle.answer_classes.specs.Steps.{IsLateClass};
ghost use Rattle.answer_classes.specs.Documents.{ReadsReply};
ghost use Rattle.s3_replies.specs.Results.{IsCopied, IsCreated};

use crate::refusals::{error_in, is_code};
use reply_xml::DocFault;
use s3_model::{Answered, Ask, Class, Reply, Text, UploadId, Why};
use s3_replies::{read_buckets, read_completed, read_copied, read_created, read_list};
use std::alloc::Global;

/// What the answer to CreateMultipartUpload says.
fn created(alloc: Global, doc: &[u8]) -> Result<UploadId, DocFault>
    ensures value { IfOk result (IsCreated doc.now) }
    ensures refused { IfRefused result ((id : List ℕ) → ¬ (IsCreated doc.now id)) }
{
    let id = match read_created(alloc, doc) {
        Ok(id) => id,
        Err(fault) => return Err(fault),
    };
    let Some(upload) = UploadId::of(id.as_str()) else {
        unreachable!();
    };
    Ok(upload)
}

/// Reads the answer to CopyObject, which has an entity tag.
fn copied(alloc: Global, doc: &[u8]) -> Result<(), DocFault>
    ensures value { OnOk result ((etag : List ℕ) × IsCopied false doc.now etag) }
    ensures refused { IfRefused result ((etag : List ℕ) → ¬ (IsCopied false doc.now etag)) }
{
    let _etag = read_copied(alloc, doc, false)?;
    Ok(())
}

/// What the document that a request needs says.
fn reply_of(alloc: Global, ask: &Ask, doc: &[u8]) -> Result<Reply, DocFault>
    requires { NeedsDocument ask.now }
    ensures value { IfOk result (ReadsReply ask.now doc.now) }
    ensures refused { IfRefused result ((said : Reply) → ¬ (ReadsReply ask.now doc.now said)) }
{
    match ask {
        Ask::Copy { .. } => match copied(alloc, doc) {
            Ok(()) => Ok(Reply::Copied),
            Err(fault) => Err(fault),
        },
        Ask::PartCopy { .. } => match read_copied(alloc, doc, true) {
            Ok(etag) => Ok(Reply::PartStored { etag }),
            Err(fault) => Err(fault),
        },
        Ask::Create { .. } => match created(alloc, doc) {
            Ok(upload) => Ok(Reply::Created { upload }),
            Err(fault) => Err(fault),
        },
        Ask::Complete { .. } => match read_completed(alloc, doc) {
            Ok(()) => Ok(Reply::Completed),
            Err(fault) => Err(fault),
        },
        Ask::List { .. } => match read_list(alloc, doc) {
            Ok(page) => Ok(Reply::Listed(page)),
            Err(fault) => Err(fault),
        },
        Ask::Buckets => match read_buckets(alloc, doc) {
            Ok(buckets) => Ok(Reply::BucketList(buckets)),
            Err(fault) => Err(fault),
        },
        Ask::Head { .. }
        | Ask::Get { .. }
        | Ask::Put { .. }
        | Ask::Delete { .. }
        | Ask::Part { .. }
        | Ask::Abort { .. } => unreachable!(),
    }
}

/// Whether the success of the request stands in the document of its answer.
pub(crate) fn needs_document(ask: &Ask) -> bool
    ensures { IsTrue result ↔ NeedsDocument ask.now }
{
    match ask {
        Ask::Copy { .. }
        | Ask::PartCopy { .. }
        | Ask::Create { .. }
        | Ask::Complete { .. }
        | Ask::List { .. }
        | Ask::Buckets => true,
        Ask::Head { .. }
        | Ask::Get { .. }
        | Ask::Put { .. }
        | Ask::Delete { .. }
        | Ask::Part { .. }
        | Ask::Abort { .. } => false,
    }
}

/// Whether a 2xx to the request may still say that it failed.
fn may_fail_late(ask: &Ask) -> bool
    ensures { IsTrue result ↔ MayFailLate ask.now }
{
    match ask {
        Ask::Copy { .. } | Ask::PartCopy { .. } | Ask::Complete { .. } => true,
        Ask::Head { .. }
        | Ask::Get { .. }
        | Ask::Put { .. }
        | Ask::Delete { .. }
        | Ask::Create { .. }
        | Ask::Part { .. }
        | Ask::Abort { .. }
        | Ask::List { .. }
        | Ask::Buckets => false,
    }
}

/// The class of a 2xx with this Error document.
fn class_of_code(code: Text, message: Text) -> Class
    ensures { IsLateClass code message result }
{
    if is_code(code.as_str(), "InternalError") {
        return Class::Uncertain(Why::Internal);
    }
    Class::Refusal { code, message }
}

/// The class of a 2xx that lacks the document that the request needs.
#[tactic(auto, using(crate::proofs::DocumentReplies::never_late))]
fn class_of_failure(alloc: Global, ask: &Ask, answered: &Answered) -> Class
    requires success { IsTwoHundred answered.now.status }
    requires needs { NeedsDocument ask.now }
    requires lacks { (said : Reply) → ¬ (ReadsReply ask.now answered.now.body.bytes said) }
    ensures { IsClassed ask.now answered.now result }
{
    if !may_fail_late(ask) {
        return Class::Uncertain(Why::Document);
    }
    let Ok(found) = error_in(alloc, answered.body.as_slice()) else {
        return Class::Uncertain(Why::Memory);
    };
    match found {
        Some((code, message)) => class_of_code(code, message),
        None => Class::Uncertain(Why::Document),
    }
}

/// The class of a 2xx by the document that the request needs.
#[tactic(auto, using(crate::proofs::DocumentReplies::succeeds))]
pub(crate) fn class_of_document(alloc: Global, ask: &Ask, answered: &Answered) -> Class
    requires success { IsTwoHundred answered.now.status }
    requires needs { NeedsDocument ask.now }
    ensures { IsClassed ask.now answered.now result }
{
    match reply_of(alloc, ask, answered.body.as_slice()) {
        Ok(reply) => Class::Success(reply),
        Err(fault) => match fault {
            DocFault::Memory => Class::Uncertain(Why::Memory),
            _ => class_of_failure(alloc, ask, answered),
        },
    }
}
