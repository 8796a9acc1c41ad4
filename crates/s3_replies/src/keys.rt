//! Keys and prefixes as a page is read: as they are written, or judged by their encoding.

ghost use Rattle.std.specs.Prelude.{◌≡◌, ◌≤◌, ℕ, List, IfOk, OnOk, IsSome, false, length, true, Option};
ghost use Rattle.std.proofs.Common.{◌∙◌, sym};
ghost use Rattle.reply_values.specs.UrlText.{MeansText};
ghost use Rattle.reply_xml.proofs.KeyLemmas.{key_fits, prefix_fits};
ghost use Rattle.reply_xml.specs.Breaks.{BreaksElement, IfBroken};
ghost use Rattle.reply_xml.specs.Contents.{is_the};
ghost use Rattle.reply_xml.specs.declared.elements.Element.TheVariants as element;
ghost use Rattle.reply_xml.specs.declared.elements.Element.{Element};
ghost use Rattle.reply_xml.specs.Faults.{IfRefused};
ghost use Rattle.reply_xml.specs.Fits.{ReadsWell};
ghost use Rattle.reply_xml.specs.Meaning.{meaning_of};
ghost use Rattle.reply_xml.specs.Reading.{Advances, LeafLeft, Stops};
ghost use Rattle.reply_xml.specs.Tables.{IsFound};
ghost use Rattle.reply_xml.specs.Unfit.{AKey, APrefix, IsUnfit};
ghost use Rattle.s3_replies.specs.Listing.{IsWrittenKey, IsWrittenPrefix, SpellsKey, key_form, keys_of, object_table};

use reply_values::{UrlFault, is_key, url_decode};
use reply_xml::{Child, DocFault, Element, FormedText, Leaf, Meaning, PlainText, Reader};
use s3_model::Text;
use std::alloc::Global;
use std::mem;

/// How the keys and prefixes of a page are read.
#[derive(Clone, Copy)]
pub(crate) enum Keys {
    /// As they are written.
    Written,
    /// Judged as plain ones.
    Plain,
    /// Judged as those that are written as in a URL.
    Url,
}

/// How keys and prefixes are judged where the encoding is `url`, and where it is not.
pub(crate) fn keys_of(url: bool) -> Keys
    ensures { result ≡ keys_of url }
{
    if url { Keys::Url } else { Keys::Plain }
}

/// The text of a written key or prefix, which is that of a URL where `url` is true.
pub(crate) fn decoded(alloc: Global, url: bool, written: Text) -> Result<Text, DocFault>
    ensures value { IfOk result (λ text. MeansText url written text) }
    ensures refused { IfRefused result ((text : List ℕ) → ¬ (MeansText url written text)) }
    ensures unfit { IfBroken result (IsUnfit (APrefix url) element.Prefix written) }
{
    if !url {
        return Ok(written);
    }
    match url_decode(alloc, written.as_str()) {
        Ok(text) => Ok(text),
        Err(UrlFault::Bad) => Err(DocFault::BadEscape),
        Err(UrlFault::Memory) => Err(DocFault::Memory),
    }
}

/// What a written key or prefix means.
fn meaning(alloc: Global, url: bool, written: &str) -> Result<Text, DocFault>
    ensures value { IfOk result (λ text. MeansText url written.now text) }
    ensures refused { IfRefused result ((text : List ℕ) → ¬ (MeansText url written.now text)) }
    ensures unfit { IfBroken result (IsUnfit (APrefix url) element.Prefix written.now) }
{
    let Ok(copy) = Text::of(alloc, written) else {
        return Err(DocFault::Memory);
    };
    decoded(alloc, url, copy)
}

/// A written key that means one.
fn judged_key(alloc: Global, of: Element, url: bool, text: Meaning<'_>) -> Result<Text, DocFault>
    ensures value { IfOk result (IsWrittenKey url (meaning_of text.entry)) }
    ensures refused { IfRefused result ((value : List ℕ) → ¬ (IsWrittenKey url (meaning_of text.entry) value)) }
    ensures unfit { IfBroken result (IsUnfit (AKey url) of (meaning_of text.entry)) }
{
    let written = PlainText::value_of(alloc, of, text)?;
    let key = meaning(alloc, url, written.as_str())?;
    if !is_key(key.as_str()) {
        return Err(DocFault::BadText(of));
    }
    Ok(written)
}

/// A written prefix that means a text.
fn judged_prefix(alloc: Global, of: Element, url: bool, text: Meaning<'_>) -> Result<Text, DocFault>
    ensures value { IfOk result (IsWrittenPrefix url (meaning_of text.entry)) }
    ensures refused { IfRefused result ((value : List ℕ) → ¬ (IsWrittenPrefix url (meaning_of text.entry) value)) }
    ensures unfit { IfBroken result (IsUnfit (APrefix url) of (meaning_of text.entry)) }
{
    let written = PlainText::value_of(alloc, of, text)?;
    mem::drop(meaning(alloc, url, written.as_str())?);
    Ok(written)
}

/// Keys that are plain.
pub(crate) struct PlainKey;

impl Leaf for PlainKey {
    type Value = Text;

    ghost spells = { λ of. IsWrittenKey false };

    ghost form = { AKey false };

    ghost alone = { λ of text v w r s. s.0 ∙ sym r.0 };

    ghost fits = { λ of text v s reason u. key_fits false of text s.1.0 s.1.1 s.1.2 reason u };

    fn value_of(alloc: Global, of: Element, text: Meaning<'_>) -> Result<Text, DocFault> {
        judged_key(alloc, of, false, text)
    }
}

/// Keys as in URLs.
pub(crate) struct UrlKey;

impl Leaf for UrlKey {
    type Value = Text;

    ghost spells = { λ of. IsWrittenKey true };

    ghost form = { AKey true };

    ghost alone = { λ of text v w r s. s.0 ∙ sym r.0 };

    ghost fits = { λ of text v s reason u. key_fits true of text s.1.0 s.1.1 s.1.2 reason u };

    fn value_of(alloc: Global, of: Element, text: Meaning<'_>) -> Result<Text, DocFault> {
        judged_key(alloc, of, true, text)
    }
}

/// Prefixes that are plain.
pub(crate) struct PlainPrefix;

impl Leaf for PlainPrefix {
    type Value = Text;

    ghost spells = { λ of. IsWrittenPrefix false };

    ghost form = { APrefix false };

    ghost alone = { λ of text v w r s. s.0 ∙ sym r.0 };

    ghost fits = { λ of text v s reason u. prefix_fits false of text s.1.0 s.1.1 reason u };

    fn value_of(alloc: Global, of: Element, text: Meaning<'_>) -> Result<Text, DocFault> {
        judged_prefix(alloc, of, false, text)
    }
}

/// Prefixes as in URLs.
pub(crate) struct UrlPrefix;

impl Leaf for UrlPrefix {
    type Value = Text;

    ghost spells = { λ of. IsWrittenPrefix true };

    ghost form = { APrefix true };

    ghost alone = { λ of text v w r s. s.0 ∙ sym r.0 };

    ghost fits = { λ of text v s reason u. prefix_fits true of text s.1.0 s.1.1 reason u };

    fn value_of(alloc: Global, of: Element, text: Meaning<'_>) -> Result<Text, DocFault> {
        judged_prefix(alloc, of, true, text)
    }
}

/// Takes in the key of an object.
pub(crate) fn take_key<'a>(
    reader: &mut Reader<'a>,
    child: &Child<'a>,
    keys: Keys,
    found: &mut Option<Text>,
) -> Result<(), DocFault>
    requires { is_the element.Key child.now.element ≡ true }
    ensures value { OnOk result (Advances (LeafLeft (SpellsKey keys) element.Key found.old)
        (LeafLeft (SpellsKey keys) element.Key found.new) child.now reader.old.rest.now reader.new.rest.now) }
    ensures some { OnOk result (IsSome found.new) }
    ensures no_longer { length reader.new.rest.now ≤ length reader.old.rest.now }
    ensures refused { IfRefused result (Stops (LeafLeft (SpellsKey keys) element.Key found.old)
        child.now reader.old.rest.now) }
    ensures size { reader.new.size ≡ reader.old.size }
    ensures well { OnOk result ((front : List (Option Element)) → IsFound element.Key found.old front →
        ReadsWell (object_table (key_form keys)) front child.now reader.old.rest.now reader.new.rest.now) }
    ensures broken { IfBroken result (λ reason. (front : List (Option Element)) →
        IsFound element.Key found.old front →
        BreaksElement reader.old.size reason (object_table (key_form keys)) front child.now reader.old.rest.now) }
{
    match keys {
        Keys::Written => reader.take::<FormedText>(child, Element::Key, found),
        Keys::Plain => reader.take::<PlainKey>(child, Element::Key, found),
        Keys::Url => reader.take::<UrlKey>(child, Element::Key, found),
    }
}
