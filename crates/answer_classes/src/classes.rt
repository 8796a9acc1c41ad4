//! The class of what came back for a request.

ghost use Rattle.std.specs.Prelude.{◌≡◌, ◌≤◌, ◌<◌, ℕ, List};
ghost use Rattle.s3_model.specs.Classes.{IsTwoHundred};
ghost use Rattle.s3_model.specs.declared.answers.Class.TheVariants as class;
ghost use Rattle.s3_model.specs.declared.answers.Why.TheVariants as why;
ghost use Rattle.answer_classes.specs.Classifying.{IfAnswered, IfBroken, IsClassed, IsUnread, NeedsDocument};
ghost use Rattle.answer_classes.specs.Showing.{HasClass};
ghost use Rattle.answer_classes.specs.Steps.{IsHeadClass, IsPartClass};

use crate::refusals::{class_of_busy, class_of_refusal};
use crate::replies::{class_of_document, needs_document};
use s3_model::{Answered, Ask, Class, Reply, Talked, Text, Why};
use std::alloc::Global;

/// What a success of HeadObject says: its stated length, entity tag and time of change, all three.
#[tactic(auto, using(crate::proofs::Rows::head_reads, crate::proofs::Rows::head_lacks))]
fn class_of_head(answered: Answered) -> Class
    requires { IsTwoHundred answered.status }
    ensures { IsHeadClass answered result }
{
    let Answered {
        length,
        etag,
        micros,
        ..
    } = answered;
    let Some(size) = length else {
        return Class::Uncertain(Why::Document);
    };
    let Some(micros) = micros else {
        return Class::Uncertain(Why::Document);
    };
    match etag {
        Some(etag) => Class::Success(Reply::Found { size, etag, micros }),
        None => Class::Uncertain(Why::Document),
    }
}

/// What a success of UploadPart says: the entity tag of its headers.
fn class_of_part(etag: Option<Text>) -> Class
    ensures { IsPartClass etag result }
{
    match etag {
        Some(etag) => Class::Success(Reply::PartStored { etag }),
        None => Class::Uncertain(Why::Document),
    }
}

/// The class of a 2xx that no document decides.
#[tactic(auto, using(crate::proofs::Rows::part_reads))]
fn class_of_headers(ask: &Ask, answered: Answered) -> Class
    requires success { IsTwoHundred answered.status }
    requires unread { NeedsDocument ask.now → ⊥ }
    ensures { (document : List ℕ) → HasClass ask.now answered document result }
{
    match ask {
        Ask::Head { .. } => class_of_head(answered),
        Ask::Get { .. } => Class::Success(Reply::Got {
            status: answered.status,
            range: answered.range,
            length: answered.taken,
        }),
        Ask::Put { .. } => Class::Success(Reply::Stored),
        Ask::Delete { .. } => Class::Success(Reply::Gone),
        Ask::Abort { .. } => Class::Success(Reply::Gone),
        Ask::Part { .. } => class_of_part(answered.etag),
        Ask::Copy { .. }
        | Ask::PartCopy { .. }
        | Ask::Create { .. }
        | Ask::Complete { .. }
        | Ask::List { .. }
        | Ask::Buckets => unreachable!(),
    }
}

/// The class of an answer with a status 2xx.
#[tactic(auto, using(crate::proofs::Rows::with_any))]
fn class_of_success(alloc: Global, ask: &Ask, answered: Answered) -> Class
    requires { IsTwoHundred answered.status }
    ensures classed { IsClassed ask.now answered result }
    ensures unread { (NeedsDocument ask.now → ⊥) → (document : List ℕ) → HasClass ask.now answered document result }
{
    if needs_document(ask) {
        return class_of_document(alloc, ask, &answered);
    }
    class_of_headers(ask, answered)
}

/// The class of an answer: its status decides which of its documents is read, if any.
#[tactic(auto, using(crate::proofs::Rows::open_ended))]
fn class_of_answer(alloc: Global, ask: &Ask, answered: Answered) -> Class
    ensures classed { 200 ≤ answered.status → IsClassed ask.now answered result }
    ensures unread { IsUnread ask.now answered.status
        → (document : List ℕ) → HasClass ask.now answered document result }
    ensures interim { answered.status < 200 → result ≡ class.Uncertain (why.Status answered.status) }
{
    match answered.status {
        200..=299 => class_of_success(alloc, ask, answered),
        300..=499 => class_of_refusal(alloc, ask, &answered),
        503 => class_of_busy(alloc, &answered),
        status => Class::Uncertain(Why::Status(status)),
    }
}

/// What came back for a request, by its class. The body of the answer is its document; that of a Get may be elsewhere.
///
/// A 2xx is a success where it has what the request needs: of Head a stated length, an entity tag and a time, of Part
/// an entity tag, of Copy, PartCopy, Create, Complete, List and Buckets their document; no other document is read. An
/// Error document in a 2xx to Copy, PartCopy or Complete is a refusal, but for `InternalError`. 3xx and 4xx are
/// refusals, with the code and the message of their Error document, or of the status where none reads. A 503 is a
/// refusal where its document says `SlowDown` or `ServiceUnavailable`. All else is left open, by its reason.
///
/// A success that no document decides has its class with any document, wherever its body went. Memory runs out only
/// where a document is read or a refusal is named by its status.
pub fn classify(alloc: Global, ask: &Ask, talked: Talked) -> Class
    ensures broken { IfBroken talked (λ reason. result ≡ class.Uncertain reason) }
    ensures answered { IfAnswered talked (λ answered. 200 ≤ answered.status → IsClassed ask.now answered result) }
    ensures unread { IfAnswered talked (λ answered. IsUnread ask.now answered.status
        → (document : List ℕ) → HasClass ask.now answered document result) }
    ensures interim { IfAnswered talked (λ answered. answered.status < 200
        → result ≡ class.Uncertain (why.Status answered.status)) }
{
    match talked {
        Talked::Broken(why) => Class::Uncertain(why),
        Talked::Answered(answered) => class_of_answer(alloc, ask, answered),
    }
}
