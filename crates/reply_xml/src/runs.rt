//! Runs of bytes of one sort.

ghost use Rattle.std.specs.Prelude.{◌≡◌, ◌≤◌, false, length};
ghost use Rattle.reply_xml.specs.Runs.{HasNoReference, ReadsRun, is_name_byte, is_of};
ghost use Rattle.reply_xml.specs.declared.runs.Sort.TheVariants as sort;

use memchr::{memchr, memchr2};

/// Sorts of bytes.
#[derive(Clone, Copy)]
pub(crate) enum Sort {
    Space,
    Name,
    /// Text, up to the next tag.
    Text,
    /// The value of an attribute in this quote.
    Value(u8),
}

/// Each byte of names stands at its own place, and a comma at every other place.
static NAME_BYTES: [u8; 256] = *b"\
    ,,,,,,,,,,,,,,,,,,,,,,,,,,,,,,,,\
    ,,,,,,,,,,,,,-.,0123456789:,,,,,\
    ,ABCDEFGHIJKLMNOPQRSTUVWXYZ,,,,_\
    ,abcdefghijklmnopqrstuvwxyz,,,,,\
    ,,,,,,,,,,,,,,,,,,,,,,,,,,,,,,,,\
    ,,,,,,,,,,,,,,,,,,,,,,,,,,,,,,,,\
    ,,,,,,,,,,,,,,,,,,,,,,,,,,,,,,,,\
    ,,,,,,,,,,,,,,,,,,,,,,,,,,,,,,,,";

/// Whether names may have the byte.
fn is_name_byte(byte: u8) -> bool
    ensures { result ≡ is_name_byte byte }
{
    NAME_BYTES[byte as usize] != b','
}

pub(crate) fn is_of(sort: Sort, byte: u8) -> bool
    ensures { result ≡ is_of sort byte }
{
    match sort {
        Sort::Space => byte == b' ' || byte == b'\t' || byte == b'\n' || byte == b'\r',
        Sort::Name => is_name_byte(byte),
        Sort::Text => byte != b'<',
        Sort::Value(quote) => byte != b'<' && byte != quote,
    }
}

/// The text at the front, up to the next `<`, what follows it, and whether a `&` stands in the text.
pub(crate) fn split_text(bytes: &[u8]) -> (&[u8], &[u8], bool)
    ensures value { ReadsRun sort.Text result.0.now bytes.now result.1.now }
    ensures shorter { length result.1.now ≤ length bytes.now }
    ensures plain { result.2 ≡ false → HasNoReference result.0.now }
{
    let Some(place) = memchr2(b'<', b'&', bytes) else {
        return (bytes, &[], false);
    };
    if bytes[place] == b'<' {
        let (text, rest) = bytes.split_at(place);
        return (text, rest, false);
    }
    match memchr(b'<', bytes) {
        Some(end) => {
            let (text, rest) = bytes.split_at(end);
            (text, rest, true)
        }
        None => (bytes, &[], true),
    }
}

/// The longest run of bytes of names at the front, and what follows it.
pub(crate) fn split_name_run(bytes: &[u8]) -> (&[u8], &[u8])
    ensures value { ReadsRun sort.Name result.0.now bytes.now result.1.now }
    ensures shorter { length result.1.now ≤ length bytes.now }
{
    for (i, byte) in bytes.iter().enumerate() {
        if !is_name_byte(*byte) {
            return bytes.split_at(i);
        }
    }
    (bytes, &[])
}

/// The longest run of the sort at the front, and what follows it.
pub(crate) fn split_run(sort: Sort, bytes: &[u8]) -> (&[u8], &[u8])
    ensures value { ReadsRun sort result.0.now bytes.now result.1.now }
    ensures shorter { length result.1.now ≤ length bytes.now }
{
    for (i, byte) in bytes.iter().enumerate() {
        if !is_of(sort, *byte) {
            return bytes.split_at(i);
        }
    }
    (bytes, &[])
}
