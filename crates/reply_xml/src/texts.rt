//! What the text between two tags means.

ghost use Rattle.std.specs.Prelude.{◌≡◌, ℕ, List, IfOk, MatchOption, false, length, true};
ghost use Rattle.std.specs.Str.{IsUtf8};
ghost use Rattle.reply_xml.specs.Faults.{EndsIn, EndsWithin, IfBad, IfEnds, OnBad, OnEnds, TellsText};
ghost use Rattle.reply_xml.specs.Leaves.{HasBadReference, IsAtFault, IsSound};
ghost use Rattle.reply_xml.specs.Meaning.{meaning_of};
ghost use Rattle.reply_xml.specs.Runs.{HasNoReference};
ghost use Rattle.reply_values.specs.References.{GoesOn, IsUnescaped};

use crate::places::utf8_front;
use reply_values::{ReferenceFault, bad_reference, unescape};
use s3_model::{OutOfMemory, Text};
use std::alloc::Global;

/// Why a text cannot be read.
#[derive(Clone, Copy)]
pub(crate) enum TextFault {
    /// It leaves the grammar behind so many bytes.
    Ends(usize),
    BadReference,
    Memory,
}

/// What a text means: itself where it has no reference, else another text.
#[derive(Drop)]
pub enum Meaning<'a> {
    Itself(&'a str),
    Unescaped(Text),
}

impl Meaning<'_> {
    pub fn as_str(&self) -> &str
        ensures { result.now ≡ meaning_of self.now }
    {
        match self {
            Meaning::Itself(text) => text,
            Meaning::Unescaped(text) => text.as_str(),
        }
    }

    pub(crate) fn into_text(self, alloc: Global) -> Result<Text, OutOfMemory>
        ensures { IfOk result (λ text. text ≡ meaning_of self.entry) }
    {
        match self {
            Meaning::Itself(text) => Text::of(alloc, text),
            Meaning::Unescaped(text) => Ok(text),
        }
    }
}

/// The text of bytes, where they are UTF-8. Those of a `sound` document are.
fn utf8_text(bytes: &[u8], sound: bool) -> Option<&str>
    requires { sound ≡ true → IsUtf8 bytes.now }
    ensures { MatchOption result (¬ (IsUtf8 bytes.now)) (λ text. (text.now ≡ bytes.now) × IsUtf8 bytes.now) }
{
    if sound {
        return Some(unsafe { std::str::from_utf8_unchecked(bytes) });
    }
    match std::str::from_utf8(bytes) {
        Ok(text) => Some(text),
        Err(_) => None,
    }
}

/// What a text means that `<` follows; without a reference nothing is allocated. A text of a `sound` document is UTF-8,
/// and one that is not `referenced` has no `&`.
#[inline(always)]
pub(crate) fn read_meaning<'a>(
    alloc: Global,
    bytes: &'a [u8],
    sound: bool,
    referenced: bool,
) -> Result<Meaning<'a>, TextFault>
    requires sound { sound ≡ true → IsUtf8 bytes.now }
    requires plain { referenced ≡ false → HasNoReference bytes.now }
    ensures value { IfOk result (λ found. IsUtf8 bytes.now × IsUnescaped bytes.now (meaning_of found)) }
    ensures refused { TellsText result (IsUtf8 bytes.now → (text : List ℕ) → ¬ (IsUnescaped bytes.now text)) }
    ensures place { EndsWithin result (length bytes.now) }
    ensures broken { IfEnds result (λ place. ¬ (IsUtf8 bytes.now)) }
    ensures sound { IfEnds result (λ place. IsSound bytes.now × IsAtFault bytes.now place) }
    ensures bad { IfBad result (HasBadReference bytes.now) }
{
    let Some(raw) = utf8_text(bytes, sound) else {
        return Err(text_fault(bytes, false));
    };
    if !referenced {
        return Ok(Meaning::Itself(raw));
    }
    match unescape(alloc, raw) {
        Ok(text) => Ok(Meaning::Unescaped(text)),
        Err(ReferenceFault::Bad(_)) => Err(TextFault::BadReference),
        Err(ReferenceFault::Memory) => Err(TextFault::Memory),
    }
}

/// The first fault of a text that is not UTF-8, or, where it is the `last`, that no `<` follows. A reference that the
/// end of the document cuts short is not a bad one where more bytes could complete it.
pub(crate) fn text_fault(bytes: &[u8], last: bool) -> TextFault
    ensures place { EndsIn result (length bytes.now) }
    ensures whole { OnEnds result (λ place. IsUtf8 bytes.now → (place ≡ length bytes.now) × GoesOn bytes.now) }
    ensures sound { OnEnds result (λ place. ¬ (IsUtf8 bytes.now) → IsSound bytes.now) }
    ensures fault { OnEnds result (λ place. ¬ (IsUtf8 bytes.now) → IsAtFault bytes.now place) }
    ensures bad { OnBad result (HasBadReference bytes.now) }
    ensures uncut { OnBad result (last ≡ true → IsUtf8 bytes.now → ¬ (GoesOn bytes.now)) }
{
    match std::str::from_utf8(bytes) {
        Ok(raw) => match bad_reference(raw) {
            Some(found) if last && found.cut_short => TextFault::Ends(bytes.len()),
            Some(_) => TextFault::BadReference,
            None => TextFault::Ends(bytes.len()),
        },
        Err(fault) => match bad_reference(valid_front(&bytes[..fault.valid_up_to()])) {
            Some(_) => TextFault::BadReference,
            None => TextFault::Ends(utf8_front(bytes)),
        },
    }
}

/// The text of bytes, or an empty one where they are not UTF-8.
fn valid_front(bytes: &[u8]) -> &str
    requires { IsUtf8 bytes.now }
    ensures { result.now ≡ bytes.now }
{
    match std::str::from_utf8(bytes) {
        Ok(text) => text,
        Err(_) => "",
    }
}
