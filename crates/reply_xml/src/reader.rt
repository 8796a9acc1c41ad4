//! A document that is read from its front.

ghost use Rattle.std.specs.Prelude.{◌∷◌, [], ◌≡◌, ◌≢◌, ◌≤◌, ◌<◌, ◌+◌, ◌-◌, ℕ, List, Option, Some, None, true};
ghost use Rattle.std.specs.Prelude.{IfOk, OnOk, length, Bool, false, IfSome, OnSome, IfNone};
ghost use Rattle.std.specs.Bool.{MatchBool};
ghost use Rattle.reply_xml.specs.declared.elements.Element.{Element};
ghost use Rattle.reply_xml.specs.Contents.{Content, ReadsText, ReadsInner, is_the};
ghost use Rattle.reply_xml.specs.Children.{IsLeafOf};
ghost use Rattle.reply_xml.specs.Breaks.{BreaksElement, BreaksIn, BreaksLeaf, BreaksText, IfBroken, OnBroken, Stands};
ghost use Rattle.reply_xml.specs.Leaves.{LeavesEndTag, LeavesTagEnd};
ghost use Rattle.reply_xml.specs.Runs.{ReadsRun};
ghost use Rattle.reply_xml.specs.declared.runs.Sort.TheVariants as sort;
ghost use Rattle.reply_xml.specs.Tables.{Done, IsFresh, IsOutside, Table, first_missing, form_in};
ghost use Rattle.std.specs.Str.{IsUtf8, is_utf8};
ghost use Rattle.reply_xml.specs.declared.tags.Child.{Child};
ghost use Rattle.reply_xml.specs.Faults.{IfRefused};
ghost use Rattle.reply_xml.specs.Unfit.{HasText};
ghost use Rattle.reply_xml.specs.Tags.{IsName, ReadsTag, ReadsTagEnd, ReadsEndTag};
ghost use Rattle.reply_xml.specs.Meaning.{meaning_of};
ghost use Rattle.reply_xml.specs.Reading.{AtEnd, EndsContent, HoldsAs, HoldsNone, HoldsSome, IsTagOf, NamesChild};
ghost use Rattle.reply_xml.specs.Reading.{ReadsAs, ReadsNone, ReadsSome};
ghost use Rattle.reply_values.specs.References.{IsUnescaped};

use crate::elements::{Element, element_named};
use crate::faults::DocFault;
use crate::leaves::Leaf;
use crate::runs::split_text;
use crate::tags::{Child, Tag, after_end_tag, after_tag_end, split_start};
use crate::texts::{Meaning, TextFault, read_meaning, text_fault};
use std::alloc::Global;
use std::mem;

/// A document that is read from its front, tag by tag.
#[derive(Drop)]
pub struct Reader<'a> {
    pub alloc: Global,
    /// The length of the document in bytes.
    pub size: usize,
    /// What is left of it.
    pub rest: &'a [u8],
    /// Whether the whole document was found to be UTF-8, so that its texts need not be judged again.
    pub(crate) sound: bool,
    ghost fits: { length rest.now ≤ size },
    ghost judged: { sound ≡ true → is_utf8 rest.now ≡ true },
}

/// Whether a tag begins here.
fn at_tag(bytes: &[u8]) -> bool
    ensures { MatchBool result ((rest : List ℕ) × (bytes.now ≡ 60 ∷ rest))
        ((rest : List ℕ) → ¬ (bytes.now ≡ 60 ∷ rest)) }
{
    match bytes {
        [b'<', ..] => true,
        _ => false,
    }
}

/// Whether an end tag begins here, and no other tag.
fn at_end_tag(bytes: &[u8]) -> bool
    ensures { MatchBool result ((rest : List ℕ) × (bytes.now ≡ 60 ∷ 47 ∷ rest))
        ((rest : List ℕ) → ¬ (bytes.now ≡ 60 ∷ 47 ∷ rest)) }
{
    match bytes {
        [b'<', b'/', ..] => true,
        _ => false,
    }
}

impl<'a> Reader<'a> {
    /// Another reader at the same place.
    pub fn fork(&self) -> Reader<'a>
        ensures rest { result.rest.now ≡ self.now.rest.now }
        ensures size { result.size ≡ self.now.size }
    {
        Reader {
            alloc: self.alloc,
            size: self.size,
            rest: self.rest,
            sound: self.sound,
        }
    }

    /// The place where so many bytes are left.
    pub(crate) fn place(&self, left: usize) -> usize
        requires { left ≤ length self.now.rest.now }
        ensures { result ≡ self.now.size - left }
    {
        self.size - left
    }

    /// What the text up to the next `<` means.
    #[inline(always)]
    fn text(&mut self) -> Result<Meaning<'a>, DocFault>
        ensures value { IfOk result (λ found. (raw : List ℕ) × ReadsText raw self.old.rest.now self.new.rest.now ×
            IsUnescaped raw (meaning_of found)) }
        ensures followed { OnOk result (self.new.rest.now ≢ []) }
        ensures no_longer { length self.new.rest.now ≤ length self.old.rest.now }
        ensures refused { IfRefused result ((text rest : List ℕ) → ¬ (ReadsText text self.old.rest.now (60 ∷ rest))) }
        ensures size { self.new.size ≡ self.old.size }
        ensures broken { IfBroken result (λ reason. BreaksText self.old.size reason self.old.rest.now) }
    {
        if at_tag(self.rest) {
            return Ok(Meaning::Itself(""));
        }
        let (text, rest, referenced) = split_text(self.rest);
        if rest.is_empty() {
            return Err(self.last_text_fault(text));
        }
        match read_meaning(self.alloc, text, self.sound, referenced) {
            Ok(found) => {
                self.rest = rest;
                Ok(found)
            }
            Err(TextFault::Ends(place)) => {
                Err(DocFault::NotADocument(self.place(self.rest.len() - place)))
            }
            Err(TextFault::BadReference) => Err(DocFault::BadEscape),
            Err(TextFault::Memory) => Err(DocFault::Memory),
        }
    }

    /// The fault of a text that no `<` follows.
    fn last_text_fault(&self, text: &[u8]) -> DocFault
        requires short { length text.now ≤ length self.now.rest.now }
        requires whole { ReadsRun sort.Text text.now self.now.rest.now [] }
        ensures { OnBroken result (λ reason. BreaksText self.now.size reason self.now.rest.now) }
    {
        match text_fault(text, true) {
            TextFault::Ends(place) => {
                DocFault::NotADocument(self.place(self.rest.len() - place))
            }
            TextFault::BadReference => DocFault::BadEscape,
            TextFault::Memory => DocFault::Memory,
        }
    }

    /// The next element inside an element, or None where its end tag begins.
    #[inline(always)]
    pub fn next_child(&mut self, parent: &Tag<'a>) -> Result<Option<Child<'a>>, DocFault>
        ensures child { IfOk result
            (λ found. IfSome found (λ child. NamesChild parent.now.room self.old.rest.now child self.new.rest.now)) }
        ensures apart { IfOk result (λ found. IfSome found (λ child. parent.now.closed ≡ false)) }
        ensures shorter { IfOk result (λ found. OnSome found (length self.new.rest.now < length self.old.rest.now)) }
        ensures end { IfOk result (λ found. IfNone found (AtEnd parent.now self.old.rest.now self.new.rest.now)) }
        ensures no_longer { length self.new.rest.now ≤ length self.old.rest.now }
        ensures refused { IfRefused result ((inner : Content) (rest : List ℕ) →
            ¬ (ReadsInner parent.now.closed inner parent.now.room parent.now.name.now self.old.rest.now rest)) }
        ensures none { IfRefused result ((child : Child) (from : List ℕ) →
            ¬ (NamesChild parent.now.room self.old.rest.now child from)) }
        ensures size { self.new.size ≡ self.old.size }
        ensures broken { IfBroken result (λ reason. (table : Table) (front : List (Option Element)) →
            BreaksIn self.old.size reason table front parent.now self.old.rest.now) }
    {
        if parent.closed {
            return Ok(None);
        }
        mem::drop(self.text()?);
        if at_end_tag(self.rest) {
            return Ok(None);
        }
        let (name, rest) = match split_start(self.rest) {
            Ok(parts) => parts,
            Err(left) => return Err(DocFault::NotADocument(self.place(left))),
        };
        if parent.room == 0 {
            return Err(DocFault::TooDeep);
        }
        self.rest = rest;
        Ok(Some(Child {
            name,
            element: element_named(name),
            room: parent.room - 1,
        }))
    }

    /// What stands in an element's tag behind its name.
    #[inline(always)]
    pub fn tag(&mut self, child: &Child<'a>) -> Result<Tag<'a>, DocFault>
        ensures value { IfOk result (λ tag. IsTagOf child.now tag self.old.rest.now self.new.rest.now) }
        ensures no_longer { length self.new.rest.now ≤ length self.old.rest.now }
        ensures refused { IfRefused result ((closed : Bool) (rest : List ℕ) →
            ¬ (ReadsTagEnd closed self.old.rest.now rest)) }
        ensures size { self.new.size ≡ self.old.size }
        ensures broken { IfBroken result (λ reason. (left : ℕ) × LeavesTagEnd self.old.rest.now left
            × Stands self.old.size left reason) }
    {
        let (closed, rest) = match after_tag_end(self.rest) {
            Ok(parts) => parts,
            Err(left) => return Err(DocFault::NotADocument(self.place(left))),
        };
        self.rest = rest;
        Ok(Tag {
            name: child.name,
            element: child.element,
            closed,
            room: child.room,
        })
    }

    /// The end tag of an element whose content ends here, or none where its tag is closed.
    #[inline(always)]
    pub fn end(&mut self, parent: &Tag<'a>) -> Result<(), DocFault>
        ensures value { OnOk result ((before : List ℕ) → AtEnd parent.now before self.old.rest.now →
            EndsContent parent.now before self.new.rest.now) }
        ensures no_longer { length self.new.rest.now ≤ length self.old.rest.now }
        ensures refused { IfRefused result ((before : List ℕ) → AtEnd parent.now before self.old.rest.now →
            (inner : Content) (rest : List ℕ) →
            ¬ (ReadsInner parent.now.closed inner parent.now.room parent.now.name.now before rest)) }
        ensures size { self.new.size ≡ self.old.size }
        ensures broken { IfBroken result (λ reason. (before : List ℕ) → AtEnd parent.now before self.old.rest.now →
            (table : Table) (front : List (Option Element)) → first_missing table front ≡ None →
            BreaksIn self.old.size reason table front parent.now before) }
    {
        if parent.closed {
            return Ok(());
        }
        self.end_tag(parent.name)
    }

    /// The end tag of this name.
    #[inline(always)]
    fn end_tag(&mut self, name: &[u8]) -> Result<(), DocFault>
        requires { IsName name.now }
        ensures value { OnOk result (ReadsEndTag name.now self.old.rest.now self.new.rest.now) }
        ensures no_longer { length self.new.rest.now ≤ length self.old.rest.now }
        ensures refused { IfRefused result ((rest : List ℕ) → ¬ (ReadsEndTag name.now self.old.rest.now rest)) }
        ensures size { self.new.size ≡ self.old.size }
        ensures broken { IfBroken result (λ reason. (left : ℕ) × LeavesEndTag name.now self.old.rest.now left
            × Stands self.old.size left reason) }
    {
        match after_end_tag(name, self.rest) {
            Ok(rest) => {
                self.rest = rest;
                Ok(())
            }
            Err(left) => Err(DocFault::NotADocument(self.place(left))),
        }
    }

    /// What the text of a leaf means, up to its end tag.
    pub fn leaf_text(&mut self, tag: &Tag<'a>) -> Result<Meaning<'a>, DocFault>
        ensures value { IfOk result (λ found.
            HasText tag.now self.old.rest.now self.new.rest.now (meaning_of found)) }
        ensures followed { OnOk result (tag.now.closed ≡ false → self.new.rest.now ≢ []) }
        ensures no_longer { length self.new.rest.now ≤ length self.old.rest.now }
        ensures refused { IfRefused result ((text rest : List ℕ) → HasText tag.now self.old.rest.now rest text →
            ¬ (tag.now.closed ≡ false → rest ≢ [])) }
    {
        if tag.closed {
            return Ok(Meaning::Itself(""));
        }
        self.text()
    }

    /// The value of a leaf.
    pub fn leaf<L: Leaf>(&mut self, child: &Child<'a>, of: Element) -> Result<L::Value, DocFault>
        requires { is_the of child.now.element ≡ true }
        ensures value { IfOk result (λ value. ReadsAs (IsLeafOf (L.spells of))
            child.now self.old.rest.now self.new.rest.now value) }
        ensures no_longer { length self.new.rest.now ≤ length self.old.rest.now }
        ensures refused { IfRefused result (ReadsNone (IsLeafOf (L.spells of)) child.now self.old.rest.now) }
        ensures size { self.new.size ≡ self.old.size }
        ensures broken { IfBroken result (λ reason. (table : Table) (front : List (Option Element)) →
            form_in table of ≡ Some L.form → IsFresh table front child.now.element →
            BreaksElement self.old.size reason table front child.now self.old.rest.now) }
    {
        let tag = self.tag(child)?;
        self.leaf_content::<L>(&tag, of)
    }

    /// The value of a leaf, behind its tag.
    fn leaf_content<L: Leaf>(&mut self, tag: &Tag<'a>, of: Element) -> Result<L::Value, DocFault>
        ensures value { IfOk result (λ value. HoldsAs (IsLeafOf (L.spells of))
            tag.now self.old.rest.now self.new.rest.now value) }
        ensures no_longer { length self.new.rest.now ≤ length self.old.rest.now }
        ensures refused { IfRefused result (HoldsNone (IsLeafOf (L.spells of)) tag.now self.old.rest.now) }
        ensures size { self.new.size ≡ self.old.size }
        ensures broken { IfBroken result (λ reason. BreaksLeaf self.old.size reason L.form of tag.now self.old.rest.now) }
    {
        if tag.closed {
            return L::value_of(self.alloc, of, Meaning::Itself(""));
        }
        let text = self.text()?;
        let value = L::value_of(self.alloc, of, text)?;
        self.end_tag(tag.name)?;
        Ok(value)
    }

    /// What stands in an element, with its end tag.
    pub fn skip(&mut self, child: &Child<'a>) -> Result<(), DocFault>
        ensures value { OnOk result (ReadsSome child.now self.old.rest.now self.new.rest.now) }
        ensures no_longer { length self.new.rest.now ≤ length self.old.rest.now }
        ensures refused { IfRefused result ((rest : List ℕ) → ¬ (ReadsSome child.now self.old.rest.now rest)) }
        ensures size { self.new.size ≡ self.old.size }
        ensures broken { IfBroken result (λ reason. (table : Table) (front : List (Option Element)) →
            IsOutside table child.now.element →
            BreaksElement self.old.size reason table front child.now self.old.rest.now) }
    {
        let tag = self.tag(child)?;
        self.skip_content(&tag)
    }

    /// What stands inside an element, with its end tag.
    fn skip_content(&mut self, tag: &Tag<'a>) -> Result<(), DocFault>
        ensures value { OnOk result (HoldsSome tag.now self.old.rest.now self.new.rest.now) }
        ensures no_longer { length self.new.rest.now ≤ length self.old.rest.now }
        ensures refused { IfRefused result ((rest : List ℕ) → ¬ (HoldsSome tag.now self.old.rest.now rest)) }
        ensures size { self.new.size ≡ self.old.size }
        ensures broken { IfBroken result (λ reason. BreaksIn self.old.size reason Done [] tag.now self.old.rest.now) }
    {
        let mut inner = *tag;
        let mut outer = Vec::new(self.alloc);
        'elements: loop {
            match self.next_child(&inner)? {
                Some(child) => {
                    let within = self.tag(&child)?;
                    match outer.push(inner) {
                        Ok(()) => inner = within,
                        Err(_) => return Err(DocFault::Memory),
                    }
                }
                None => {
                    self.end(&inner)?;
                    match outer.pop() {
                        Some(parent) => inner = parent,
                        None => return Ok(()),
                    }
                }
            }
        }
    }
}
