//! Texts that are written as in a URL.

ghost use Rattle.std.specs.Prelude.{◌≡◌, ◌<◌, ◌≤◌, ◌++◌, ◌∷◌, [], ℕ, List, length, IfOk, IfSome, IfNone};
ghost use Rattle.reply_values.specs.Spelling.{Spells, StartsPiece, StartsNoPiece};
ghost use Rattle.reply_values.specs.UrlText.{IsEscape, StandsForByte, SpellsUrlText};

use memchr::memchr2;
use s3_model::Text;
use std::alloc::Global;

/// Why an escaped text cannot be read.
#[derive(Clone, Copy, Debug)]
pub enum UrlFault {
    /// A `%` without two hexadecimal digits behind it, or bytes that are not UTF-8.
    Bad,
    Memory,
}

/// The byte of two hexadecimal digits at the front, and what follows them.
fn hex_byte(digits: &[u8]) -> Option<(u8, &[u8])>
    ensures value { IfSome result (λ read. StartsPiece IsEscape (37 ∷ digits.now) (read.0 ∷ []) read.1.now) }
    ensures refused { IfNone result (StartsNoPiece IsEscape (37 ∷ digits.now)) }
    ensures shorter { IfSome result (λ read. length read.1.now ≤ length digits.now) }
{
    if digits.len() < 2 {
        return None;
    }
    let high = char::from(digits[0]).to_digit(16)?;
    let low = char::from(digits[1]).to_digit(16)?;
    Some(((high * 16 + low) as u8, &digits[2..]))
}

/// The byte that the front of a text stands for, and what follows.
fn first_byte(text: &[u8]) -> Option<(u8, &[u8])>
    requires { 0 < length text.now }
    ensures value { IfSome result (λ read. StartsPiece StandsForByte text.now (read.0 ∷ []) read.1.now) }
    ensures refused { IfNone result (StartsNoPiece StandsForByte text.now) }
    ensures shorter { IfSome result (λ read. length read.1.now < length text.now) }
{
    match text[0] {
        b'%' => hex_byte(&text[1..]),
        b'+' => Some((b' ', &text[1..])),
        byte => Some((byte, &text[1..])),
    }
}

/// The bytes in front of the first `%` or `+`, which stand for themselves, and what follows.
fn split_plain(text: &[u8]) -> (&[u8], &[u8])
    ensures split { text.now ≡ result.0.now ++ result.1.now }
    ensures plain { Spells StandsForByte result.0.now result.0.now }
    ensures shorter { length result.1.now ≤ length text.now }
{
    match memchr2(b'%', b'+', text) {
        Some(place) => text.split_at(place),
        None => (text, &[]),
    }
}

/// The bytes that an escaped text stands for.
fn decoded_bytes(alloc: Global, text: &[u8]) -> Result<Vec<u8>, UrlFault>
    ensures value { IfOk result (λ bytes. Spells StandsForByte text.now bytes.items) }
    ensures refused { result ≡ Err UrlFault.Bad → (bytes : List ℕ) → ¬ (Spells StandsForByte text.now bytes) }
{
    let Ok(mut bytes) = Vec::with_capacity(alloc, text.len()) else {
        return Err(UrlFault::Memory);
    };
    let mut rest = text;
    'pieces: loop {
        let (plain, behind) = split_plain(rest);
        if bytes.extend_from_slice(plain).is_err() {
            return Err(UrlFault::Memory);
        }
        if behind.is_empty() {
            return Ok(bytes);
        }
        let Some((byte, next)) = first_byte(behind) else {
            return Err(UrlFault::Bad);
        };
        if bytes.push(byte).is_err() {
            return Err(UrlFault::Memory);
        }
        rest = next;
    }
}

/// The text that the S3 API's `encoding-type=url` writes so: `+` is a space, `%` with two hexadecimal digits of
/// either case is a byte (RFC 3986, section 2.1), and every other byte is itself.
///
/// `Bad` where a `%` has no two hexadecimal digits behind it, and where the bytes are not UTF-8.
pub fn url_decode(alloc: Global, text: &str) -> Result<Text, UrlFault>
    ensures value { IfOk result (SpellsUrlText text.now) }
    ensures refused { result ≡ Err UrlFault.Bad → (decoded : List ℕ) → ¬ (SpellsUrlText text.now decoded) }
{
    let bytes = decoded_bytes(alloc, text.as_bytes())?;
    match String::from_utf8(bytes) {
        Ok(decoded) => Ok(Text::from(decoded)),
        Err(_) => Err(UrlFault::Bad),
    }
}
