//! Tags, with their attributes.

ghost use Rattle.std.specs.Prelude.{◌≡◌, ◌<◌, ◌≤◌, ◌∷◌, ℕ, Bool, Err, List};
ghost use Rattle.std.specs.Prelude.{length, IfOk, IfErr, OnErr, IfSome, MatchOption};
ghost use Rattle.reply_xml.specs.Leaves.{LeavesAttribute, LeavesEndTag, LeavesName, LeavesStart};
ghost use Rattle.reply_xml.specs.Leaves.{LeavesTagEnd, LeavesValue};
ghost use Rattle.reply_xml.specs.Tags.{IsName, NameEnds, NamesTag, ReadsAttribute, ReadsEndTag, ReadsGap, ReadsName};
ghost use Rattle.reply_xml.specs.Tags.{ReadsTag, ReadsTagEnd, ReadsValue, ends_name};
ghost use Rattle.reply_xml.specs.Runs.{BeginsOutside, is_name_byte};

use crate::elements::Element;
use crate::places::{common_front, is_same, utf8_front};
use crate::runs::{Sort, is_of, split_name_run, split_run};

/// An element that begins, up to the end of its name. On `room` levels elements may stand inside.
#[derive(Clone, Copy)]
pub struct Child<'a> {
    pub name: &'a [u8],
    pub element: Option<Element>,
    pub room: usize,
    ghost named: { IsName name.now },
}

/// The start tag of an element, or where it is closed its empty-element tag. On `room` levels elements may stand
/// inside.
#[derive(Clone, Copy)]
pub struct Tag<'a> {
    pub name: &'a [u8],
    pub element: Option<Element>,
    pub closed: bool,
    pub room: usize,
    ghost named: { IsName name.now },
}

/// What follows the byte, where it stands at the front.
pub(crate) fn after_byte(byte: u8, bytes: &[u8]) -> Option<&[u8]>
    ensures value { MatchOption result ((rest : List ℕ) → ¬ (bytes.now ≡ byte ∷ rest))
        (λ rest. bytes.now ≡ byte ∷ rest.now) }
    ensures shorter { IfSome result (λ rest. length rest.now < length bytes.now) }
{
    match bytes {
        [first, rest @ ..] if *first == byte => Some(rest),
        _ => None,
    }
}

/// A name at the front, and what follows it. An error is the number of bytes that are left where the grammar fails.
pub(crate) fn split_name(bytes: &[u8]) -> Result<(&[u8], &[u8]), usize>
    ensures value { IfOk result (λ parts. ReadsName parts.0.now bytes.now parts.1.now) }
    ensures shorter { IfOk result (λ parts. length parts.1.now < length bytes.now) }
    ensures left { IfErr result (λ left. left ≤ length bytes.now) }
    ensures refused { OnErr result ((name rest : List ℕ) → ¬ (ReadsName name bytes.now rest)) }
    ensures leaves { IfErr result (λ left. LeavesName bytes.now left) }
    ensures outside { BeginsOutside is_name_byte bytes.now → result ≡ Err (length bytes.now) }
{
    let (name, rest) = split_name_run(bytes);
    if name.is_empty() {
        return Err(bytes.len());
    }
    Ok((name, rest))
}

/// What follows the quoted value at the front.
fn after_value(bytes: &[u8]) -> Result<&[u8], usize>
    ensures value { IfOk result (λ rest. ReadsValue bytes.now rest.now) }
    ensures shorter { IfOk result (λ rest. length rest.now < length bytes.now) }
    ensures left { IfErr result (λ left. left ≤ length bytes.now) }
    ensures refused { OnErr result ((rest : List ℕ) → ¬ (ReadsValue bytes.now rest)) }
    ensures leaves { IfErr result (λ left. LeavesValue bytes.now left) }
{
    let Some((quote, inside)) = bytes.split_first() else {
        return Err(bytes.len());
    };
    let quote = *quote;
    if quote != b'"' && quote != b'\'' {
        return Err(bytes.len());
    }
    let (value, last) = split_run(Sort::Value(quote), inside);
    let Ok(_) = std::str::from_utf8(value) else {
        return Err(inside.len() - utf8_front(value));
    };
    match after_byte(quote, last) {
        Some(rest) => Ok(rest),
        None => Err(last.len()),
    }
}

/// What follows the attribute at the front.
fn after_attribute(bytes: &[u8]) -> Result<&[u8], usize>
    ensures value { IfOk result (λ rest. ReadsAttribute bytes.now rest.now) }
    ensures shorter { IfOk result (λ rest. length rest.now < length bytes.now) }
    ensures left { IfErr result (λ left. left ≤ length bytes.now) }
    ensures refused { OnErr result ((rest : List ℕ) → ¬ (ReadsAttribute bytes.now rest)) }
    ensures leaves { IfErr result (λ left. LeavesAttribute bytes.now left) }
{
    let (_, equals) = split_name(bytes)?;
    let Some(value) = after_byte(b'=', equals) else {
        return Err(equals.len());
    };
    after_value(value)
}

/// What stands in a tag behind its name: attributes, white space, and the end. Also whether the end is that of an
/// empty-element tag.
#[inline(always)]
pub(crate) fn after_tag_end(bytes: &[u8]) -> Result<(bool, &[u8]), usize>
    ensures value { IfOk result (λ parts. ReadsTagEnd parts.0 bytes.now parts.1.now) }
    ensures shorter { IfOk result (λ parts. length parts.1.now < length bytes.now) }
    ensures left { IfErr result (λ left. left ≤ length bytes.now) }
    ensures refused { OnErr result ((closed : Bool) (rest : List ℕ) → ¬ (ReadsTagEnd closed bytes.now rest)) }
    ensures leaves { IfErr result (λ left. LeavesTagEnd bytes.now left) }
{
    let mut here = bytes;
    'attributes: loop {
        let (space, at) = split_run(Sort::Space, here);
        if let Some(rest) = after_byte(b'>', at) {
            return Ok((false, rest));
        }
        if let Some(last) = after_byte(b'/', at) {
            return match after_byte(b'>', last) {
                Some(rest) => Ok((true, rest)),
                None => Err(last.len()),
            };
        }
        if space.is_empty() {
            return Err(at.len());
        }
        here = after_attribute(at)?;
    }
}

/// Whether the name of a tag can end where this byte follows.
fn ends_name(byte: u8) -> bool
    ensures { result ≡ ends_name byte }
{
    is_of(Sort::Space, byte) || byte == b'/' || byte == b'>'
}

/// The name of the start tag or empty-element tag at the front, and what follows it.
pub(crate) fn split_start(bytes: &[u8]) -> Result<(&[u8], &[u8]), usize>
    ensures value { IfOk result (λ parts. NamesTag parts.0.now bytes.now parts.1.now) }
    ensures shorter { IfOk result (λ parts. length parts.1.now < length bytes.now) }
    ensures left { IfErr result (λ left. left ≤ length bytes.now) }
    ensures refused { OnErr result ((closed : Bool) (name rest : List ℕ) → ¬ (ReadsTag closed name bytes.now rest)) }
    ensures leaves { IfErr result (λ left. LeavesStart bytes.now left) }
    ensures unnamed { OnErr result ((name rest : List ℕ) → NamesTag name bytes.now rest → ¬ (NameEnds rest)) }
    ensures named { IfErr result (λ left. (name rest : List ℕ) → NamesTag name bytes.now rest → left ≡ length rest) }
    ensures ended { IfOk result (λ parts. NameEnds parts.1.now) }
    ensures bare { ((more : List ℕ) → ¬ (bytes.now ≡ 60 ∷ more)) → result ≡ Err (length bytes.now) }
    ensures nameless { (more : List ℕ) → bytes.now ≡ 60 ∷ more → BeginsOutside is_name_byte more →
        result ≡ Err (length more) }
{
    let Some(at_name) = after_byte(b'<', bytes) else {
        return Err(bytes.len());
    };
    let (name, rest) = split_name(at_name)?;
    let Some(next) = rest.first() else {
        return Err(0);
    };
    if !ends_name(*next) {
        return Err(rest.len());
    }
    Ok((name, rest))
}

/// What follows the end tag of that name at the front, where no white space stands in it. The bytes are compared with
/// the name, and no name is looked for in them.
#[inline(always)]
fn after_plain_end_tag<'a>(name: &[u8], bytes: &'a [u8]) -> Option<&'a [u8]>
    requires { IsName name.now }
    ensures value { IfSome result (λ rest. ReadsEndTag name.now bytes.now rest.now) }
    ensures shorter { IfSome result (λ rest. length rest.now < length bytes.now) }
{
    let at_slash = after_byte(b'<', bytes)?;
    let at_name = after_byte(b'/', at_slash)?;
    let (front, at_close) = at_name.split_at_checked(name.len())?;
    if !is_same(front, name) {
        return None;
    }
    after_byte(b'>', at_close)
}

/// What follows the end tag of that name at the front, in which white space may stand behind the name.
fn after_spaced_end_tag<'a>(name: &[u8], bytes: &'a [u8]) -> Result<&'a [u8], usize>
    ensures value { IfOk result (λ rest. ReadsEndTag name.now bytes.now rest.now) }
    ensures shorter { IfOk result (λ rest. length rest.now < length bytes.now) }
    ensures left { IfErr result (λ left. left ≤ length bytes.now) }
    ensures refused { OnErr result ((rest : List ℕ) → ¬ (ReadsEndTag name.now bytes.now rest)) }
    ensures leaves { IfErr result (λ left. LeavesEndTag name.now bytes.now left) }
{
    let Some(at_slash) = after_byte(b'<', bytes) else {
        return Err(bytes.len());
    };
    let Some(at_name) = after_byte(b'/', at_slash) else {
        return Err(at_slash.len());
    };
    let (found, at_space) = split_name(at_name)?;
    if !is_same(found, name) {
        return Err(at_name.len() - common_front(found, name));
    }
    let (_, at_close) = split_run(Sort::Space, at_space);
    match after_byte(b'>', at_close) {
        Some(rest) => Ok(rest),
        None => Err(at_close.len()),
    }
}

/// What follows the end tag of that name at the front.
#[inline(always)]
pub(crate) fn after_end_tag<'a>(name: &[u8], bytes: &'a [u8]) -> Result<&'a [u8], usize>
    requires { IsName name.now }
    ensures value { IfOk result (λ rest. ReadsEndTag name.now bytes.now rest.now) }
    ensures shorter { IfOk result (λ rest. length rest.now < length bytes.now) }
    ensures left { IfErr result (λ left. left ≤ length bytes.now) }
    ensures refused { OnErr result ((rest : List ℕ) → ¬ (ReadsEndTag name.now bytes.now rest)) }
    ensures leaves { IfErr result (λ left. LeavesEndTag name.now bytes.now left) }
{
    match after_plain_end_tag(name, bytes) {
        Some(rest) => Ok(rest),
        None => after_spaced_end_tag(name, bytes),
    }
}
