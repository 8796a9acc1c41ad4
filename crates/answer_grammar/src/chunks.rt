//! Reading the parts of a chunked body that are read whole: the line with a size, and the trailers.

ghost use Rattle.answer_grammar.specs.Parts.{ReadsSize, ReadsTrailers};

use crate::head_room::HeadRoom;
use httparse::spans::parse_headers;
use httparse::{Status, parse_chunk_size};
use s3_model::Why;

/// The greatest length of a chunk's line, and of a trailer section, in bytes.
const LINE_LIMIT: usize = 1_024;

/// The length of the chunk line at the front of the bytes, and the size that it states, or None where none is whole yet.
///
/// # Errors
///
/// `BadChunk` where no line of at most 1,024 bytes can come (RFC 9112, section 7.1).
pub fn read_size(after: &[u8]) -> Result<Option<(usize, u64)>, Why>
    ensures { ReadsSize after.now result }
{
    let window = &after[..after.len().min(LINE_LIMIT)];
    match parse_chunk_size(window) {
        Ok(Status::Complete((len, size))) => Ok(Some((len, size))),
        Ok(Status::Partial) if after.len() < LINE_LIMIT => Ok(None),
        _ => Err(Why::BadChunk),
    }
}

/// The length of the trailer section at the front of the bytes, or None where none is whole yet.
///
/// # Errors
///
/// `BadChunk` where no section of at most 1,024 bytes can come (RFC 9112, section 7.1.2).
pub fn read_trailers(room: &mut HeadRoom, after: &[u8]) -> Result<Option<usize>, Why>
    ensures { ReadsTrailers after.now result }
{
    let window = &after[..after.len().min(LINE_LIMIT)];
    match parse_headers(window, &mut room.spans) {
        Ok(Status::Complete((len, _))) => Ok(Some(len)),
        Ok(Status::Partial) if after.len() < LINE_LIMIT => Ok(None),
        Ok(Status::Partial) => Err(Why::BadChunk),
        Err(_) => Err(Why::BadChunk),
    }
}
