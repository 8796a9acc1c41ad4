//! Which encoding a page names for its keys.

ghost use Rattle.std.specs.Prelude.{◌≡◌, ◌≢◌, ◌↔◌, ℕ, Bool, true, false, List, IfErr, IfOk, codes};
ghost use Rattle.reply_xml.specs.declared.elements.Element.TheVariants as element;
ghost use Rattle.reply_xml.specs.Reading.{HoldsAs};
ghost use Rattle.s3_replies.specs.Encodings.{FirstIs, HasElementText};
ghost use Rattle.s3_replies.specs.Listing.{EncodingLeft};

use reply_xml::{Child, DocFault, Element, Reader, Tag, is_the};

/// No encoding is named where the bytes leave the grammar; whether one is, nobody knows where memory ran out.
fn unnamed(fault: DocFault) -> Result<bool, DocFault>
    ensures memory { IfErr result (λ reason. reason ≡ DocFault.Memory) }
    ensures none { IfOk result (λ named. (named ≡ false) × (fault ≢ DocFault.Memory)) }
{
    if fault == DocFault::Memory {
        return Err(fault);
    }
    Ok(false)
}

/// Whether the text of an element is `url`.
fn is_url<'a>(reader: &Reader<'a>, child: &Child<'a>) -> Result<bool, DocFault>
    ensures memory { IfErr result (λ reason. reason ≡ DocFault.Memory) }
    ensures text { IfOk result (λ named.
        (named ≡ true) ↔ HasElementText child.now reader.now.rest.now (codes "url")) }
{
    let mut ahead = reader.fork();
    let tag = match ahead.tag(child) {
        Ok(tag) => tag,
        Err(fault) => return unnamed(fault),
    };
    match ahead.leaf_text(&tag) {
        Ok(text) => Ok(text.as_str() == "url"),
        Err(fault) => unnamed(fault),
    }
}

/// Whether the first `EncodingType` inside the root of a page is `url`. What is missing, stands twice or is out of its
/// form in front of it does not hide it.
pub(crate) fn names_url<'a>(reader: &Reader<'a>, root: &Tag<'a>) -> Result<bool, DocFault>
    ensures memory { IfErr result (λ reason. reason ≡ DocFault.Memory) }
    ensures first { IfOk result (λ named. (named ≡ true) ↔ ((root.now.closed ≡ false)
        × FirstIs element.EncodingType root.now.room (codes "url") reader.now.rest.now)) }
    ensures page { IfOk result (λ named. (rest : List ℕ) (url : Bool) →
        HoldsAs (EncodingLeft false) root.now reader.now.rest.now rest url → url ≡ named) }
{
    let mut here = reader.fork();
    'children: loop {
        let child = match here.next_child(root) {
            Ok(Some(child)) => child,
            Ok(None) => return Ok(false),
            Err(fault) => return unnamed(fault),
        };
        if is_the(Element::EncodingType, child.element) {
            return is_url(&here, &child);
        }
        if let Err(fault) = here.skip(&child) {
            return unnamed(fault);
        }
    }
}
