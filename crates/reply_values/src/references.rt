//! References to characters, and the text that character data spells.

ghost use Rattle.std.specs.Prelude.{◌≡◌, ◌≤◌, ◌<◌, ◌++◌, ◌∷◌, ◌↔◌, ◌==◌, ℕ, List, IfOk, IfSome, IfNone, IsTrue};
ghost use Rattle.std.specs.Prelude.{encode_utf8, length, not};
ghost use Rattle.std.specs.List.{AllPass};
ghost use Rattle.reply_values.specs.References.{BeginsNumber, GoesOn, IsBadReference, IsCutShort, IsNumbered};
ghost use Rattle.reply_values.specs.References.{IsReference, IsUnescaped, Names, begins_entity};
ghost use Rattle.reply_values.specs.Spelling.{StartsPiece, StartsNoPiece};

use crate::numbers::unsigned;
use memchr::memchr;
use s3_model::Text;
use std::alloc::Global;

/// Why character data spells no text.
#[derive(Clone, Copy, Debug)]
pub enum ReferenceFault {
    /// The place of the `&` of the first bad reference.
    Bad(usize),
    Memory,
}

/// The character whose number follows `#` in decimal, or `#x` in hexadecimal.
fn numbered(name: &str) -> Option<char>
    ensures value { IfSome result (IsNumbered name.now) }
    ensures refused { IfNone result ((char : ℕ) → ¬ (IsNumbered name.now char)) }
{
    let digits = name.strip_prefix('#')?;
    let number = match digits.strip_prefix('x') {
        Some(digits) => unsigned(digits, 16)?,
        None => unsigned(digits, 10)?,
    };
    char::from_u32(u32::try_from(number).ok()?)
}

/// The character that a name between `&` and `;` stands for.
fn named(name: &str) -> Option<char>
    ensures value { IfSome result (Names name.now) }
    ensures refused { IfNone result ((char : ℕ) → ¬ (Names name.now char)) }
{
    match name {
        "lt" => Some('<'),
        "gt" => Some('>'),
        "amp" => Some('&'),
        "quot" => Some('"'),
        "apos" => Some('\''),
        _ => numbered(name),
    }
}

/// What stands in front of the first such byte, and what follows it.
fn split_at_byte(text: &str, byte: u8) -> Option<(&str, &str)>
    requires { byte < 128 }
    ensures value { IfSome result (λ parts. text.now ≡ parts.0.now ++ (byte ∷ parts.1.now)) }
    ensures first { IfSome result (λ parts. AllPass (λ b. not (b == byte)) parts.0.now) }
    ensures shorter { IfSome result (λ parts. length parts.1.now < length text.now) }
    ensures none { IfNone result (AllPass (λ b. not (b == byte)) text.now) }
{
    match memchr(byte, text.as_bytes()) {
        Some(place) => Some((&text[..place], &text[place + 1..])),
        None => None,
    }
}

/// The character of the reference whose `&` stands in front of the text, and what follows its `;`.
fn reference(text: &str) -> Option<(char, &str)>
    ensures value { IfSome result (λ read. StartsPiece IsReference (38 ∷ text.now) (encode_utf8 read.0) read.1.now) }
    ensures refused { IfNone result (StartsNoPiece IsReference (38 ∷ text.now)) }
    ensures shorter { IfSome result (λ read. length read.1.now ≤ length text.now) }
{
    let (name, rest) = split_at_byte(text, b';')?;
    Some((named(name)?, rest))
}

/// The text that character data, cut at the next `<`, spells: a reference is its character (XML 1.0, sections 4.1 and
/// 4.6), and every other byte is itself. The five predefined entities are known, and each character by its number, zero
/// included, with any number of leading zeros.
///
/// `Bad` where a `&` begins no reference, with the place of the first such `&` in bytes.
pub fn unescape(alloc: Global, raw: &str) -> Result<Text, ReferenceFault>
    ensures value { IfOk result (IsUnescaped raw.now) }
    ensures bad { (place : ℕ) → result ≡ Err (ReferenceFault.Bad place) → IsBadReference raw.now place }
    ensures refused { (place : ℕ) → result ≡ Err (ReferenceFault.Bad place) → (text : List ℕ) →
        ¬ (IsUnescaped raw.now text) }
{
    let Ok(mut text) = String::with_capacity(alloc, raw.len()) else {
        return Err(ReferenceFault::Memory);
    };
    let mut rest = raw;
    while let Some((plain, behind)) = split_at_byte(rest, b'&') {
        let Some((char, next)) = reference(behind) else {
            return Err(ReferenceFault::Bad(raw.len() - behind.len() - 1));
        };
        if text.push_str(plain).is_err() || text.push(char).is_err() {
            return Err(ReferenceFault::Memory);
        }
        rest = next;
    }
    if text.push_str(rest).is_err() {
        return Err(ReferenceFault::Memory);
    }
    Ok(Text::from(text))
}

/// A `&` of a text that begins no reference.
#[derive(Clone, Copy)]
pub struct BadReference {
    /// Its place in bytes.
    pub place: usize,
    /// Whether more bytes at the end of the text could complete a reference there.
    pub cut_short: bool,
}

/// The first `&` that begins no reference.
pub fn bad_reference(raw: &str) -> Option<BadReference>
    ensures bad { IfSome result (λ found. IsBadReference raw.now found.place) }
    ensures cut_short { IfSome result (λ found. IsTrue found.cut_short ↔ GoesOn raw.now) }
    ensures good { IfNone result ((text : List ℕ) × IsUnescaped raw.now text) }
{
    let mut rest = raw;
    while let Some((_plain, behind)) = split_at_byte(rest, b'&') {
        let Some((_char, next)) = reference(behind) else {
            return Some(BadReference {
                place: raw.len() - behind.len() - 1,
                cut_short: may_begin_reference(behind),
            });
        };
        rest = next;
    }
    None
}

/// Whether a number written so far in this radix, perhaps without a digit, may be that of a character.
fn may_be_number(digits: &str, radix: u32) -> bool
    requires least { 2 ≤ radix }
    requires most { radix ≤ 16 }
    ensures { IsTrue result ↔ BeginsNumber radix digits.now }
{
    if digits.is_empty() {
        return true;
    }
    match unsigned(digits, radix) {
        Some(number) => number <= 0x10FFFF,
        None => false,
    }
}

/// Whether what is written so far begins the name of an entity, with the `;` behind it.
fn may_be_entity(name: &[u8]) -> bool
    ensures { result ≡ begins_entity name.now }
{
    b"lt;".starts_with(name)
        || (b"gt;".starts_with(name)
            || (b"amp;".starts_with(name)
                || (b"quot;".starts_with(name) || b"apos;".starts_with(name))))
}

/// Whether more characters could make a reference of what follows a `&` that begins none.
fn may_begin_reference(name: &str) -> bool
    requires { StartsNoPiece IsReference (38 ∷ name.now) }
    ensures { IsTrue result ↔ IsCutShort (38 ∷ name.now) }
{
    let Some(digits) = name.strip_prefix('#') else {
        return may_be_entity(name.as_bytes());
    };
    match digits.strip_prefix('x') {
        Some(hex) => may_be_number(hex, 16),
        None => may_be_number(digits, 10),
    }
}
