//! A place for where the header lines of a head stand.

ghost use Rattle.std.specs.Prelude.{◌≡◌, vec_len};

use httparse::spans::{EMPTY_HEADER_SPAN, HeaderSpan};
use s3_model::OutOfMemory;
use std::alloc::Global;

/// More header lines than a head of 65,536 bytes can have.
const ALL_LINES: usize = 21_846;

/// A place for where header lines stand, with room for those of every head. One serves any number of answers.
#[derive(Drop)]
pub struct HeadRoom {
    pub(crate) spans: Vec<HeaderSpan>,
    ghost all: { vec_len spans ≡ 21_846 },
}

impl HeadRoom {
    /// A place for the lines of one head at a time.
    pub fn make(alloc: Global) -> Result<HeadRoom, OutOfMemory> {
        let spans = vec![in alloc; EMPTY_HEADER_SPAN; ALL_LINES]?;
        Ok(HeadRoom { spans })
    }
}
