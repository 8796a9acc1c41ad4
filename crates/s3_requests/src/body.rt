//! The documents that requests send as their bodies.
ghost use Rattle.std.specs.Prelude.{◌≡◌, ◌++◌, OnOk, IfOk, codes, string_bytes};
ghost use Rattle.s3_model.specs.Documents as spec;

use crate::description::{Body, describe};
use itoa::Buffer;
use s3_model::{Ask, Bytes, OutOfMemory, Text};
use std::alloc::{AllocError, Global};

fn push_escaped(out: &mut String, ch: char) -> Result<(), AllocError>
    ensures { OnOk result (string_bytes out.new ≡ string_bytes out.old ++ spec.escape_markup ch) }
{
    if ch == '&' {
        return out.push_str("&amp;");
    }
    if ch == '<' {
        return out.push_str("&lt;");
    }
    if ch == '>' {
        return out.push_str("&gt;");
    }
    if ch == '"' {
        return out.push_str("&quot;");
    }
    out.push(ch)
}

/// Adds a text as it stands in a document, with `&`, `<`, `>` and `"` as references.
fn push_markup(out: &mut String, text: &str) -> Result<(), AllocError>
    ensures { OnOk result (string_bytes out.new ≡ string_bytes out.old ++ spec.markup text.now) }
{
    for ch in text.chars() {
        push_escaped(out, ch)?;
    }
    Ok(())
}

#[tactic(auto, using(crate::proofs::BodyLemmas::documents))]
fn push_etag(out: &mut String, etag: &str) -> Result<(), AllocError>
    ensures { OnOk result (string_bytes out.new ≡ string_bytes out.old ++ spec.etag_element etag.now) }
{
    out.push_str("<ETag>")?;
    push_markup(out, etag)?;
    out.push_str("</ETag>")
}

#[tactic(auto, using(crate::proofs::BodyLemmas::documents))]
fn push_number(out: &mut String, number: usize) -> Result<(), AllocError>
    ensures { OnOk result (string_bytes out.new ≡ string_bytes out.old ++ spec.number_element number) }
{
    out.push_str("<PartNumber>")?;
    out.push_str(Buffer::new().format(number))?;
    out.push_str("</PartNumber>")
}

/// Adds the element of one part.
#[tactic(auto, using(crate::proofs::BodyLemmas::documents))]
fn push_part(out: &mut String, number: usize, etag: &Text) -> Result<(), AllocError>
    ensures { OnOk result (string_bytes out.new ≡ string_bytes out.old ++ spec.part_element (number, etag.now)) }
{
    out.push_str("<Part>")?;
    push_etag(out, etag.as_str())?;
    push_number(out, number)?;
    out.push_str("</Part>")
}

/// Adds the elements of the parts, numbered from 1.
fn push_parts(out: &mut String, etags: &[Text]) -> Result<(), AllocError>
    ensures { OnOk result (string_bytes out.new ≡ string_bytes out.old ++ spec.part_elements etags.now) }
{
    for (i, etag) in etags.iter().enumerate() {
        push_part(out, i + 1, etag)?;
    }
    Ok(())
}

/// The document that ends an upload in parts.
#[tactic(auto, using(crate::proofs::BodyLemmas::documents))]
fn completion(alloc: Global, etags: &[Text]) -> Result<String, AllocError>
    ensures { IfOk result (λ text. string_bytes text ≡ spec.completion etags.now) }
{
    let mut out = String::with_capacity(alloc, 128)?;
    out.push_str("<CompleteMultipartUpload xmlns=\"http://s3.amazonaws.com/doc/2006-03-01/\">")?;
    push_parts(&mut out, etags)?;
    out.push_str("</CompleteMultipartUpload>")?;
    Ok(out)
}

/// The bytes, with their length as their room.
fn bytes_of(alloc: Global, text: &[u8]) -> Result<Bytes, OutOfMemory>
    ensures { IfOk result (λ bytes. bytes.bytes ≡ text.now) }
{
    let mut bytes = Bytes::make(alloc, text.len() as u64)?;
    bytes.add(text);
    Ok(bytes)
}

/// The document that an ask sends. It is empty for every ask but `Complete`; the body of `Put` and `Part` is the
/// object's bytes, which the caller has.
#[tactic(auto, using(crate::proofs::BodyLemmas::document_of_is))]
pub fn body_text(alloc: Global, ask: &Ask) -> Result<Bytes, OutOfMemory>
    ensures { IfOk result (λ body. body.bytes ≡ spec.document_of ask.now) }
{
    match describe(ask).body {
        Body::Document(etags) => bytes_of(alloc, completion(alloc, etags.as_slice())?.as_bytes()),
        Body::Absent | Body::Bytes => Bytes::make(alloc, 0),
    }
}
