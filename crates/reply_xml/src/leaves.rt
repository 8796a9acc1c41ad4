//! The values of elements that have no element inside.

ghost use Rattle.std.specs.Prelude.{◌≡◌, ◌≤◌, ℕ, Bool, List, IfOk, OnOk, IsTrue, ◌↔◌, length};
ghost use Rattle.std.proofs.Common.{◌∙◌, sym};
ghost use Rattle.reply_values.specs.Numbers.{SpellsNumber, SpellsTruth};
ghost use Rattle.reply_values.specs.Times.{SpellsTime};
ghost use Rattle.reply_values.proofs.NumberLemmas.{SpellsNumber-same, SpellsTruth-same};
ghost use Rattle.reply_values.proofs.TimeValues.{SpellsTime-same};
ghost use Rattle.reply_xml.specs.Children.{HasForm, IsFormed, IsPlain};
ghost use Rattle.reply_xml.specs.Breaks.{IfBroken};
ghost use Rattle.reply_xml.specs.Faults.{IfRefused};
ghost use Rattle.reply_xml.specs.Meaning.{meaning_of};
ghost use Rattle.reply_xml.specs.Unfit.{ANumber, ATime, ATruth, AnyText, IsUnfit, OwnForm};

use crate::elements::Element;
use crate::faults::DocFault;
use crate::texts::Meaning;
use reply_values::{is_etag, is_upload_id, number, time, truth};
use s3_model::Text;
use std::alloc::Global;

/// A sort of leaves: what their texts spell.
pub trait Leaf {
    ghost use Rattle.reply_xml.specs.declared.elements.Element.{Element};
    ghost use Rattle.reply_xml.specs.Unfit.{Form, IsFit, IsUnfit};

    type Value: Drop;

    ghost spells: { Element → List ℕ → Self.Value → Type 0 };

    ghost form: { Form };

    /// The value that the text of an element spells.
    fn value_of(alloc: Global, of: Element, text: Meaning<'_>) -> Result<Self::Value, DocFault>
        ensures value { IfOk result (spells of (meaning_of text.entry)) }
        ensures refused { IfRefused result ((value : Self.Value) → ¬ (spells of (meaning_of text.entry) value)) }
        ensures unfit { IfBroken result (IsUnfit form of (meaning_of text.entry)) };

    ghost alone: { (of : Element) (text : List ℕ) (v w : Self.Value) →
        spells of text v → spells of text w → w ≡ v };

    ghost fits: { (of : Element) (text : List ℕ) (v : Self.Value) → spells of text v → IsFit form of text };
}

/// Whether a text has the form of its element, where that has one.
fn has_form(element: Element, text: &str) -> bool
    ensures { IsTrue result ↔ HasForm element text.now }
{
    match element {
        Element::ETag => is_etag(text),
        Element::UploadId => is_upload_id(text),
        _ => true,
    }
}

fn text_of(alloc: Global, text: Meaning<'_>) -> Result<Text, DocFault>
    ensures value { IfOk result (λ found. found ≡ meaning_of text.entry) }
    ensures memory { IfRefused result ⊥ }
    ensures unbroken { IfBroken result (λ reason. ⊥) }
{
    match text.into_text(alloc) {
        Ok(text) => Ok(text),
        Err(_) => Err(DocFault::Memory),
    }
}

/// Texts, in the form of their elements.
pub struct FormedText;

impl Leaf for FormedText {
    type Value = Text;

    ghost spells = { IsFormed };

    ghost form = { OwnForm };

    ghost alone = { λ of text v w r s. s.0 ∙ sym r.0 };

    ghost fits = { λ of text v s reason u. u.1 s.1 };

    fn value_of(alloc: Global, of: Element, text: Meaning<'_>) -> Result<Text, DocFault> {
        if !has_form(of, text.as_str()) {
            return Err(DocFault::BadText(of));
        }
        text_of(alloc, text)
    }
}

/// Texts of any form.
pub struct PlainText;

impl Leaf for PlainText {
    type Value = Text;

    ghost spells = { λ of. IsPlain };

    ghost form = { AnyText };

    ghost alone = { λ of text v w r s. s ∙ sym r };

    ghost fits = { λ of text v s reason u. u };

    fn value_of(alloc: Global, _: Element, text: Meaning<'_>) -> Result<Text, DocFault> {
        text_of(alloc, text)
    }
}

/// Decimal numbers below 2^64.
pub struct Number;

impl Leaf for Number {
    type Value = u64;

    ghost spells = { λ of. SpellsNumber };

    ghost form = { ANumber };

    ghost alone = { λ of text v w a b. SpellsNumber-same text w v b a };

    ghost fits = { λ of text v s reason u. u.1 v s };

    fn value_of(_: Global, _: Element, text: Meaning<'_>) -> Result<u64, DocFault> {
        let Some(number) = number(text.as_str()) else {
            return Err(DocFault::BadNumber);
        };
        Ok(number)
    }
}

/// Truth values.
pub struct Truth;

impl Leaf for Truth {
    type Value = bool;

    ghost spells = { λ of. SpellsTruth };

    ghost form = { ATruth };

    ghost alone = { λ of text v w a b. SpellsTruth-same text w v b a };

    ghost fits = { λ of text v s reason u. u.1 v s };

    fn value_of(_: Global, _: Element, text: Meaning<'_>) -> Result<bool, DocFault> {
        let Some(truth) = truth(text.as_str()) else {
            return Err(DocFault::BadNumber);
        };
        Ok(truth)
    }
}

/// Times, in microseconds since 1970.
pub struct Time;

impl Leaf for Time {
    type Value = u64;

    ghost spells = { λ of. SpellsTime };

    ghost form = { ATime };

    ghost alone = { λ of text v w a b. SpellsTime-same text w v b a };

    ghost fits = { λ of text v s reason u. u.1 v s };

    fn value_of(_: Global, _: Element, text: Meaning<'_>) -> Result<u64, DocFault> {
        let Some(moment) = time(text.as_str()) else {
            return Err(DocFault::BadTime);
        };
        Ok(moment)
    }
}
