//! The texts of causes.

ghost use Rattle.std.specs.Prelude.{◌≡◌, ◌++◌, IfOk, [], codes};
ghost use Rattle.result_lines.specs.Causes.{
  IsShown,
  call_name,
  cause_text,
  front_within,
  op_name,
  reason_text,
  why_text,
};

use s3_model::{Cause, FileCall, Op, OutOfMemory, Reason, Text, Why};
use std::alloc::Global;
use std::mem;

fn op_name(op: Op) -> &'static str
    ensures { result.now ≡ op_name op }
{
    match op {
        Op::Head => "HeadObject",
        Op::Get => "GetObject",
        Op::Put => "PutObject",
        Op::Copy => "CopyObject",
        Op::Delete => "DeleteObject",
        Op::Create => "CreateMultipartUpload",
        Op::Part => "UploadPart",
        Op::PartCopy => "UploadPartCopy",
        Op::Complete => "CompleteMultipartUpload",
        Op::Abort => "AbortMultipartUpload",
        Op::List => "ListObjectsV2",
        Op::Buckets => "ListBuckets",
    }
}

fn status_text(alloc: Global, status: u16) -> Result<Text, OutOfMemory>
    ensures { IfOk result (λ text. text ≡ why_text (Why.Status status)) }
{
    Ok(Text::from(format!(in alloc; "status {status}")?))
}

fn why_text(alloc: Global, why: Why) -> Result<Text, OutOfMemory>
    ensures { IfOk result (λ text. text ≡ why_text why) }
{
    match why {
        Why::WireFailed => Text::of(alloc, "connection failed"),
        Why::EndedEarly => Text::of(alloc, "connection ended early"),
        Why::NotHttp => Text::of(alloc, "not HTTP"),
        Why::HeadTooLong => Text::of(alloc, "head too long"),
        Why::BodyTooLong(_) => Text::of(alloc, "body too long"),
        Why::BadLength => Text::of(alloc, "bad length"),
        Why::BadChunk => Text::of(alloc, "bad chunk"),
        Why::Memory => Text::of(alloc, "out of memory"),
        Why::Status(status) => status_text(alloc, status),
        Why::Internal => Text::of(alloc, "internal error"),
        Why::Document => Text::of(alloc, "unreadable answer"),
    }
}

fn call_name(call: FileCall) -> &'static str
    ensures { result.now ≡ call_name call }
{
    match call {
        FileCall::Read => "read",
        FileCall::Create => "create",
        FileCall::Write => "write",
        FileCall::Rename => "rename",
        FileCall::Remove => "remove",
    }
}

fn reason_text(reason: Reason) -> &'static str
    ensures { result.now ≡ reason_text reason }
{
    match reason {
        Reason::TaskFailed => "",
        Reason::OutputFailed => "output failed",
        Reason::ListingEnded => "listing ended",
        Reason::OutOfMemory => "out of memory",
    }
}

fn loss_text(alloc: Global, name: &str, why: &str) -> Result<Text, OutOfMemory>
    ensures { IfOk result (λ text. text ≡ codes "The answer to the " ++ name.now ++ codes " operation was lost ("
        ++ why.now ++ codes ")") }
{
    let (front, middle) = ("The answer to the ", " operation was lost (");
    Text::joined(alloc, &[front, name, middle, why, ")"])
}

fn lost_text(alloc: Global, op: Op, why: Why) -> Result<Text, OutOfMemory>
    ensures { IfOk result (λ text. text ≡ cause_text [] (Cause.Lost op why)) }
{
    let why = why_text(alloc, why)?;
    let text = loss_text(alloc, op_name(op), why.as_str());
    mem::drop(why);
    text
}

fn two_joined(alloc: Global, first: &str, second: &str) -> Result<Text, OutOfMemory>
    ensures { IfOk result (λ text. text ≡ first.now ++ second.now) }
{
    Text::joined(alloc, &[first, second])
}

fn three_joined<'a>(
    alloc: Global,
    first: &'a str,
    second: &'a str,
    third: &'a str,
) -> Result<Text, OutOfMemory>
    ensures { IfOk result (λ text. text ≡ first.now ++ second.now ++ third.now) }
{
    Text::joined(alloc, &[first, second, third])
}

fn six_joined<'a>(
    alloc: Global,
    first: &'a str,
    second: &'a str,
    third: &'a str,
    fourth: &'a str,
    fifth: &'a str,
    sixth: &'a str,
) -> Result<Text, OutOfMemory>
    ensures { IfOk result (λ text.
        text ≡ first.now ++ second.now ++ third.now ++ fourth.now ++ fifth.now ++ sixth.now) }
{
    Text::joined(alloc, &[first, second, third, fourth, fifth, sixth])
}

fn refusal_text<'a>(
    alloc: Global,
    op: Op,
    code: &'a str,
    message: &'a str,
) -> Result<Text, OutOfMemory>
    ensures { IfOk result (λ text. text ≡ cause_text [] (Cause.Service op code.now message.now)) }
{
    let (front, back) = ("An error occurred (", " operation: ");
    let middle = ") when calling the ";
    six_joined(alloc, front, code, middle, op_name(op), back, message)
}

/// The longest front of a path that ends a character and has at most so many bytes.
#[tactic(auto, using(crate::proofs::CutLemmas::cut_is))]
fn front_within(path: &str, limit: usize) -> &str
    ensures { result.now ≡ front_within limit path.now }
{
    &path[..path.floor_char_boundary(limit)]
}

/// What stands behind the line of a task that did not end as planned, without a line feed.
///
/// `dest` is the destination path, of which `Blocked` shows the longest front that ends a character and has at most
/// `length` bytes. The text of a service's refusal is the AWS CLI's, with the operation names of the Amazon S3 API
/// Reference.
pub fn cause_text(alloc: Global, cause: &Cause, dest: &str) -> Result<Text, OutOfMemory>
    requires { IsShown cause.now }
    ensures { IfOk result (λ text. text ≡ cause_text dest.now cause.now) }
{
    match cause {
        Cause::Service { op, code, message } => {
            refusal_text(alloc, *op, code.as_str(), message.as_str())
        }
        Cause::Lost { op, why } => lost_text(alloc, *op, *why),
        Cause::Changed => Text::of(alloc, "The source has changed"),
        Cause::BadReply { op } => {
            let back = " operation does not fit the request";
            three_joined(alloc, "The answer to the ", op_name(*op), back)
        }
        Cause::Files { call } => three_joined(alloc, "The file call ", call_name(*call), " failed"),
        Cause::Blocked { length } => {
            let path = front_within(dest, *length as usize);
            two_joined(alloc, "A file or folder stands in the way: ", path)
        }
        Cause::Cancelled { reason } => {
            three_joined(alloc, "Cancelled (", reason_text(*reason), ")")
        }
        Cause::Memory => Text::of(alloc, "Out of memory"),
    }
}
