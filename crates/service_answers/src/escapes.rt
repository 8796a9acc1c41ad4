//! Texts with escapes: of URLs, and of XML.

ghost use Rattle.std.specs.Prelude.{◌<◌, IfSome};

use crate::document::Document;
use crate::faults::RequestFault;
use s3_model::Text;
use std::alloc::Global;

/// The value of a hexadecimal digit.
fn digit(byte: u8) -> Option<u8>
    ensures { IfSome result (λ value. value < 16) }
{
    match byte {
        b'0'..=b'9' => Some(byte - b'0'),
        b'a'..=b'f' => Some(byte - b'a' + 10),
        b'A'..=b'F' => Some(byte - b'A' + 10),
        _ => None,
    }
}

/// The byte at the front, which may be escaped, and what is behind it.
fn first_byte(text: &[u8]) -> Option<(u8, &[u8])> {
    match text {
        [b'%', high, low, rest @ ..] => {
            let (high, low) = (digit(*high)?, digit(*low)?);
            Some((high * 16 + low, rest))
        }
        [b'%', ..] => None,
        [byte, rest @ ..] => Some((*byte, rest)),
        [] => None,
    }
}

/// The text that is written so, with `%` and two hexadecimal digits for a byte.
pub(crate) fn unescape(alloc: Global, text: &str) -> Result<Text, RequestFault> {
    let mut bytes = Vec::new(alloc);
    let mut rest = text.as_bytes();
    for _ in 0..text.len() {
        if rest.is_empty() {
            break;
        }
        let (byte, behind) = first_byte(rest).ok_or(RequestFault::Unknown)?;
        bytes.push(byte)?;
        rest = behind;
    }
    match String::from_utf8(bytes) {
        Ok(plain) => Ok(Text::from(plain)),
        Err(_) => Err(RequestFault::Unknown),
    }
}

/// Whether a byte stands for itself in a listing that is asked for with `encoding-type=url`.
fn is_plain(byte: u8) -> bool {
    byte.is_ascii_alphanumeric() || matches!(byte, b'-' | b'.' | b'_' | b'~' | b'/' | b'*')
}

/// Adds a name as a listing has it under `encoding-type=url`: a space as `+`, and other bytes escaped.
pub(crate) fn push_url(document: &mut Document, name: &str) {
    for byte in name.bytes() {
        if is_plain(byte) {
            document.push_letter(char::from(byte));
        } else if byte == b' ' {
            document.push_letter('+');
        } else {
            document.push_escape(byte);
        }
    }
}

/// Adds a text as XML has it.
pub(crate) fn push_xml(document: &mut Document, text: &str) {
    for letter in text.chars() {
        match letter {
            '&' => document.push("&amp;"),
            '<' => document.push("&lt;"),
            '>' => document.push("&gt;"),
            '"' => document.push("&quot;"),
            _ => document.push_letter(letter),
        }
    }
}
