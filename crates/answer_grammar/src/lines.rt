//! The header lines of an answer.

ghost use Rattle.std.specs.Prelude.{length, All};
ghost use Rattle.httparse.specs.Spans.{IsHeaderWithin};

use httparse::spans::HeaderSpan;

/// The header lines that were found in a buffer.
#[derive(Clone, Copy)]
pub(crate) struct Lines<'a> {
    pub(crate) buf: &'a [u8],
    pub(crate) spans: &'a [HeaderSpan],
    ghost within: { All (IsHeaderWithin (length buf.now)) spans.now },
}
