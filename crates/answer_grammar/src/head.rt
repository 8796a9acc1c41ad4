//! Reading the head of an answer.

ghost use Rattle.std.specs.Prelude.{
  ◌≡◌,
  ◌≢◌,
  ℕ,
  ◌≤◌,
  ◌&&◌,
  ◌==◌,
  Bool,
  true,
  not,
  Option,
  None,
  length,
  codes,
  Ok,
  IfOk,
  IfErr,
  MatchResult,
};
ghost use Rattle.httparse.specs.Grammar.{ResponseHead, status_code};
ghost use Rattle.httparse.specs.Spans.{IsResponseOf, IsResponseWithin};
ghost use Rattle.http1.specs.Fields.{known_fields};
ghost use Rattle.answer_grammar.specs.Head.{
  ends_itself,
  HasRange,
  StatesLength,
  first_named,
  framing_by,
  has_no_body,
  header_lines,
  lengths,
  micros_of,
};
ghost use Rattle.answer_grammar.specs.Parts.{RefusesHead, IsCodedBy, IsHeadAt, ReadsStep, SaysOf, pairs};

use crate::fields::{etag_of, range_of};
use crate::framing::Framing;
use crate::head_room::HeadRoom;
use crate::lines::Lines;
use http1::fields::{ContentLength, KnownFields, TransferEncoding};
use httparse::Status;
use httparse::spans::{HeaderSpan, ResponseSpans, parse_response};
use httpdate::HttpDate;
use s3_model::{Answered, Bytes, OutOfMemory, Why};
use std::alloc::Global;

/// The greatest length of a head in bytes.
pub const HEAD_LIMIT: usize = 65_536;

/// The greatest number of header lines.
const LINE_LIMIT: usize = 100;

/// A whole head: its length in bytes, how its body is framed, and the answer without its body.
#[derive(Drop)]
pub struct Head {
    pub len: usize,
    pub framing: Framing,
    pub answer: Answered,
}

/// The head at the front of the bytes, or None where none is whole yet.
///
/// # Errors
///
/// `NotHttp` where no head can come, and for more than 100 header lines and the status of an interim answer;
/// `BadLength` where the lines state no one end of the body; `Memory` where memory ran out for the entity tag.
pub fn read_head(
    alloc: Global,
    room: &mut HeadRoom,
    got: &[u8],
    head_only: bool,
) -> Result<Option<Head>, Why>
    requires { length got.now ≤ 65_536 }
    ensures { ReadsStep head_only got.now result }
{
    match parse_response(got, &mut room.spans) {
        Ok(Status::Partial) => Ok(None),
        Ok(Status::Complete(found)) => {
            Ok(Some(judge(alloc, got, &room.spans, &found, head_only)?))
        }
        Err(_) => Err(Why::NotHttp),
    }
}

/// What a whole head says, if it is one of a final answer and not too long.
fn judge(
    alloc: Global,
    got: &[u8],
    spans: &[HeaderSpan],
    found: &ResponseSpans,
    head_only: bool,
) -> Result<Head, Why>
    requires small { length got.now ≤ 65_536 }
    requires within { IsResponseWithin got.now spans.now found.now }
    requires complete { IsResponseOf got.now spans.now found.now }
    ensures { MatchResult result (IsHeadAt head_only got.now) (RefusesHead head_only got.now) }
{
    if found.headers > LINE_LIMIT {
        return Err(Why::NotHttp);
    }
    if found.code < 200 {
        return Err(Why::NotHttp);
    }
    let lines = Lines {
        buf: got,
        spans: &spans[..found.headers],
    };
    describe(alloc, &lines, found, head_only)
}

/// What a whole head says.
fn describe(
    alloc: Global,
    lines: &Lines<'_>,
    found: &ResponseSpans,
    head_only: bool,
) -> Result<Head, Why>
    ensures { (head : ResponseHead) → header_lines head ≡ pairs lines.now →
        found.now.code ≡ status_code head → found.now.version ≡ head.minor
        → SaysOf head_only head found.now.len result }
{
    let known = lines.known();
    let length = stated_length(lines, &known)?;
    let chunked = is_chunked(&known)?;
    let framing = framing_of(head_only, found.code, chunked, length)?;
    let etag = or_memory(etag_of(alloc, lines))?;
    let body = or_memory(Bytes::make(alloc, 0))?;
    let answer = Answered {
        status: found.code,
        etag,
        length,
        range: first_range(lines),
        micros: micros_of(lines),
        keep: may_keep(framing, found.version, known.close),
        taken: 0,
        body,
    };
    Ok(Head {
        len: found.len,
        framing,
        answer,
    })
}

fn or_memory<T>(taken: Result<T, OutOfMemory>) -> Result<T, Why>
    ensures value { IfOk result (λ value. taken ≡ Ok value) }
    ensures memory { IfErr result (λ reason. reason ≡ Why.Memory) }
{
    match taken {
        Ok(value) => Ok(value),
        Err(OutOfMemory) => Err(Why::Memory),
    }
}

/// The one length that the lines state.
fn stated_length(lines: &Lines<'_>, known: &KnownFields) -> Result<Option<u64>, Why>
    requires { known.now ≡ known_fields (pairs lines.now) }
    ensures value { IfOk result (StatesLength (lengths (pairs lines.now))) }
    ensures none { IfErr result (λ reason. (reason ≡ Why.BadLength) ×
        ((stated : Option ℕ) → ¬ (StatesLength (lengths (pairs lines.now)) stated))) }
{
    match known.content_length {
        ContentLength::Absent => Ok(None),
        ContentLength::Value(n) if lines.lengths_are_short() => Ok(Some(n)),
        _ => Err(Why::BadLength),
    }
}

/// Whether the body is in chunks. Other transfer codings are refused.
fn is_chunked(known: &KnownFields) -> Result<bool, Why>
    ensures value { IfOk result (IsCodedBy known.now) }
    ensures none { IfErr result (λ reason. (reason ≡ Why.BadLength)
        × ((chunked : Bool) → ¬ (IsCodedBy known.now chunked))) }
{
    match known.transfer_encoding {
        TransferEncoding::Absent => Ok(false),
        TransferEncoding::Chunked if !known.other_coding => Ok(true),
        _ => Err(Why::BadLength),
    }
}

/// How the body is framed. Chunks and a stated length beside them are refused.
fn framing_of(
    head_only: bool,
    status: u16,
    chunked: bool,
    length: Option<u64>,
) -> Result<Framing, Why>
    ensures value { IfOk result (λ framing. (chunked ≡ true → length ≡ None)
        × (framing ≡ framing_by (has_no_body head_only status) chunked length)) }
    ensures none { IfErr result (λ reason. (reason ≡ Why.BadLength) × (chunked ≡ true) × (length ≢ None)) }
{
    if chunked && length.is_some() {
        return Err(Why::BadLength);
    }
    if head_only || status == 204 || status == 304 {
        return Ok(Framing::NoBody);
    }
    if chunked {
        return Ok(Framing::Chunked);
    }
    match length {
        Some(n) => Ok(Framing::Length(n)),
        None => Ok(Framing::ToClose),
    }
}

/// Whether the connection may serve another request.
fn may_keep(framing: Framing, version: u8, close: bool) -> bool
    ensures { result ≡ (ends_itself framing && (version == 1 && not close)) }
{
    !matches!(framing, Framing::ToClose) && version == 1 && !close
}

/// The range that the first line spells.
fn first_range(lines: &Lines<'_>) -> Option<(u64, u64, u64)>
    ensures { HasRange (first_named (codes "content-range") (pairs lines.now)) result }
{
    range_of(lines.first(b"content-range")?)
}

/// The first date of the last change, in microseconds since 1970.
fn micros_of(lines: &Lines<'_>) -> Option<u64>
    ensures { result ≡ micros_of (pairs lines.now) }
{
    let text = lines.first(b"last-modified")?;
    match HttpDate::parse_ascii(text) {
        Ok(date) => Some(date.unix_secs() * 1_000_000),
        Err(_) => None,
    }
}
