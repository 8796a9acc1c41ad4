//! What the header lines of an answer say.

ghost use Rattle.std.specs.Prelude.{◌≡◌, Some, None, length, option_copied, if◌then◌else◌};
ghost use Rattle.std.specs.List.{list_all};
ghost use Rattle.std.specs.Str.Parse.{digits_value};
ghost use Rattle.http1.specs.Fields.{is_number, known_fields};
ghost use Rattle.answer_grammar.specs.Head.{HasRange, first_named, lengths, is_etag, is_short_number};
ghost use Rattle.answer_grammar.specs.Parts.{AfterUnit, Splits, HasEtag, pairs};

use crate::lines::Lines;
use http1::fields::KnownFields;
use http1::text::eq_ignore_case;
use s3_model::{OutOfMemory, Text};
use std::alloc::Global;

impl<'a> Lines<'a> {
    /// The value of the first line with this name, in any case.
    pub(crate) fn first(&self, name: &[u8]) -> Option<&'a [u8]>
        ensures { option_copied result ≡ first_named name.now (pairs self.now) }
    {
        let (buf, spans) = (self.buf, self.spans);
        for span in spans {
            if eq_ignore_case(span.name.of(buf), name) {
                return Some(span.value.of(buf));
            }
        }
        None
    }

    /// Whether each stated length has 1 to 19 digits.
    pub(crate) fn lengths_are_short(&self) -> bool
        ensures { result ≡ list_all is_short_number (lengths (pairs self.now)) }
    {
        let (buf, spans) = (self.buf, self.spans);
        for span in spans {
            if eq_ignore_case(span.name.of(buf), b"content-length")
                && short_number(span.value.of(buf)).is_none()
            {
                return false;
            }
        }
        true
    }

    /// What the lines say of framing and of the connection.
    pub(crate) fn known(&self) -> KnownFields
        ensures { result ≡ known_fields (pairs self.now) }
    {
        KnownFields::from_spans(self.buf, self.spans)
    }
}

/// A number of 1 to 19 digits.
pub(crate) fn short_number(text: &[u8]) -> Option<u64>
    ensures { result ≡ (if is_short_number text.now then Some (digits_value 10 text.now) else None) }
{
    if text.len() <= 19 { number(text) } else { None }
}

/// A number without a sign.
fn number(digits: &[u8]) -> Option<u64>
    ensures { result ≡ (if is_number digits.now then Some (digits_value 10 digits.now) else None) }
{
    if digits.is_empty() {
        return None;
    }
    let mut n: u64 = 0;
    for b in digits {
        if !b.is_ascii_digit() {
            return None;
        }
        n = n.checked_mul(10)?.checked_add(u64::from(*b - b'0'))?;
    }
    Some(n)
}

/// The bytes in front of and behind the first of these bytes.
fn split_at_byte(text: &[u8], byte: u8) -> Option<(&[u8], &[u8])>
    ensures { Splits byte text.now result }
{
    for (i, b) in text.iter().enumerate() {
        if *b == byte {
            return Some((&text[..i], &text[i + 1..]));
        }
    }
    None
}

/// The bytes behind `bytes `, if they begin so.
fn after_unit(text: &[u8]) -> Option<&[u8]>
    ensures { AfterUnit text.now result }
{
    text.strip_prefix(b"bytes ".as_slice())
}

/// The range that `bytes first-last/size` spells.
pub(crate) fn range_of(text: &[u8]) -> Option<(u64, u64, u64)>
    ensures { HasRange (Some text.now) result }
{
    let numbers = after_unit(text)?;
    let (first, numbers) = split_at_byte(numbers, b'-')?;
    let (last, size) = split_at_byte(numbers, b'/')?;
    Some((
        short_number(first)?,
        short_number(last)?,
        short_number(size)?,
    ))
}

/// Whether the bytes are an entity tag of 1 to 256 visible characters.
fn is_etag(text: &[u8]) -> bool
    ensures { result ≡ is_etag text.now }
{
    !text.is_empty() && text.len() <= 256 && text.iter().all(|b| b.is_ascii_graphic())
}

/// A copy of the first entity tag, where it is one of 1 to 256 visible characters.
pub(crate) fn etag_of(alloc: Global, lines: &Lines<'_>) -> Result<Option<Text>, OutOfMemory>
    ensures { HasEtag (pairs lines.now) result }
{
    let Some(text) = lines.first(b"etag") else {
        return Ok(None);
    };
    if !is_etag(text) {
        return Ok(None);
    }
    match std::str::from_utf8(text) {
        Ok(tag) => Ok(Some(Text::of(alloc, tag)?)),
        Err(_) => Ok(None),
    }
}
