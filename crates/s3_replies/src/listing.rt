//! A page of a listing, as it is written.

ghost use Rattle.std.specs.Prelude.{◌≡◌, ◌≤◌, ◌∷◌, ℕ, List, [], None, Option, IfOk, OnOk, length, codes, true, refl};
ghost use Rattle.reply_xml.specs.Contents.{Content, is_the};
ghost use Rattle.reply_xml.specs.declared.elements.Element.TheVariants as element;
ghost use Rattle.reply_xml.specs.Children.{HasOnly};
ghost use Rattle.reply_xml.specs.Unfit.{AnEncoding, Form};
ghost use Rattle.reply_xml.specs.Breaks.{BreaksElement, BreaksIn, IfBroken};
ghost use Rattle.reply_xml.specs.Faults.{IfRefused};
ghost use Rattle.reply_xml.specs.Fits.{HoldsWell, ReadsWell};
ghost use Rattle.reply_xml.specs.Reading.{Advances, HoldsAs, HoldsNone, ReadsAs, ReadsNone, Stops};
ghost use Rattle.s3_replies.specs.Listing.{EncodingLeft, HasPageBy, ObjectLeft, ObjectsLeft, SpellsKey, SpellsPrefix};
ghost use Rattle.s3_replies.specs.Listing.{KnowsObject, KnowsPage, Page, PageLeft, PrefixesLeft};
ghost use Rattle.s3_replies.specs.Listing.{key_form, object_table, page_table, prefix_form, prefix_table};
ghost use Rattle.reply_xml.specs.declared.elements.Element.{Element};
ghost use Rattle.reply_xml.specs.Tables.{IsFresh, IsParentOf, Table, stood};

use crate::keys::{Keys, PlainPrefix, UrlPrefix, take_key};
use reply_xml::{
    Child, DocFault, Element, FormedText, Leaf, Meaning, Number, Only, Parts, Reader, Tag, Time,
    Truth, is_the,
};
use s3_model::{Entry, Text};
use std::alloc::Global;
use std::marker::Model;

/// An object's parts, with its key as it is written.
#[derive(Drop)]
struct ObjectFields {
    keys: Keys,
    key: Option<Text>,
    modified: Option<u64>,
    etag: Option<Text>,
    size: Option<u64>,
}

impl Parts for ObjectFields {
    type Whole = Entry;

    ghost left = { λ s content entry. ObjectLeft (SpellsKey s.keys) s.key s.modified s.etag s.size content entry };

    ghost table = { λ s. object_table (key_form s.keys) };

    ghost knows = { λ s front. KnowsObject s.key s.modified s.etag s.size front };

    fn take<'a>(&mut self, reader: &mut Reader<'a>, child: &Child<'a>) -> Result<(), DocFault> {
        if is_the(Element::Key, child.element) {
            return take_key(reader, child, self.keys, &mut self.key);
        }
        if is_the(Element::LastModified, child.element) {
            return reader.take::<Time>(child, Element::LastModified, &mut self.modified);
        }
        if is_the(Element::ETag, child.element) {
            return reader.take::<FormedText>(child, Element::ETag, &mut self.etag);
        }
        if is_the(Element::Size, child.element) {
            return reader.take::<Number>(child, Element::Size, &mut self.size);
        }
        reader.skip(child)
    }

    fn whole(self, _: Global) -> Result<Entry, DocFault> {
        let ObjectFields {
            keys: _,
            key,
            modified,
            etag,
            size,
        } = self;
        let Some(key) = key else {
            return Err(DocFault::Missing(Element::Key));
        };
        let Some(micros) = modified else {
            return Err(DocFault::Missing(Element::LastModified));
        };
        let Some(etag) = etag else {
            return Err(DocFault::Missing(Element::ETag));
        };
        let Some(size) = size else {
            return Err(DocFault::Missing(Element::Size));
        };
        Ok(Entry {
            key,
            size,
            etag,
            micros,
        })
    }
}

/// Takes in an object.
fn take_object<'a>(
    reader: &mut Reader<'a>,
    child: &Child<'a>,
    keys: Keys,
    rows: &mut Vec<Entry>,
) -> Result<(), DocFault>
    requires { is_the element.Contents child.now.element ≡ true }
    ensures value { OnOk result (Advances (ObjectsLeft (SpellsKey keys) rows.old.items)
        (ObjectsLeft (SpellsKey keys) rows.new.items) child.now reader.old.rest.now reader.new.rest.now) }
    ensures no_longer { length reader.new.rest.now ≤ length reader.old.rest.now }
    ensures refused { IfRefused result (Stops (ObjectsLeft (SpellsKey keys) rows.old.items)
        child.now reader.old.rest.now) }
    ensures size { reader.new.size ≡ reader.old.size }
    ensures well { OnOk result ((prefix : Form) (front : List (Option Element)) →
        ReadsWell (page_table (key_form keys) prefix) front child.now reader.old.rest.now reader.new.rest.now) }
    ensures broken { IfBroken result (λ reason. (prefix : Form) (front : List (Option Element)) →
        BreaksElement reader.old.size reason (page_table (key_form keys) prefix) front child.now reader.old.rest.now) }
{
    let object = ObjectFields {
        keys,
        key: None,
        modified: None,
        etag: None,
        size: None,
    };
    let row = reader.element(child, object)?;
    let Ok(()) = rows.push(row) else {
        return Err(DocFault::Memory);
    };
    Ok(())
}

/// The prefix in a row.
fn read_prefix<'a>(reader: &mut Reader<'a>, child: &Child<'a>, keys: Keys) -> Result<Text, DocFault>
    ensures value { IfOk result (ReadsAs (HasOnly (SpellsPrefix keys) element.Prefix)
        child.now reader.old.rest.now reader.new.rest.now) }
    ensures no_longer { length reader.new.rest.now ≤ length reader.old.rest.now }
    ensures refused { IfRefused result (ReadsNone (HasOnly (SpellsPrefix keys) element.Prefix)
        child.now reader.old.rest.now) }
    ensures size { reader.new.size ≡ reader.old.size }
    ensures well { OnOk result ((table : Table) (front : List (Option Element)) (of : Element) →
        IsParentOf table child.now.element of (prefix_table (prefix_form keys)) →
        IsFresh table front child.now.element →
        ReadsWell table front child.now reader.old.rest.now reader.new.rest.now) }
    ensures broken { IfBroken result (λ reason. (table : Table) (front : List (Option Element)) (of : Element) →
        IsParentOf table child.now.element of (prefix_table (prefix_form keys)) →
        IsFresh table front child.now.element →
        BreaksElement reader.old.size reason table front child.now reader.old.rest.now) }
{
    match keys {
        Keys::Written => {
            let only: Only<FormedText> = Only {
                element: Element::Prefix,
                found: None,
            };
            reader.element(child, only)
        }
        Keys::Plain => {
            let only: Only<PlainPrefix> = Only {
                element: Element::Prefix,
                found: None,
            };
            reader.element(child, only)
        }
        Keys::Url => {
            let only: Only<UrlPrefix> = Only {
                element: Element::Prefix,
                found: None,
            };
            reader.element(child, only)
        }
    }
}

/// Takes in a prefix.
fn take_prefix<'a>(
    reader: &mut Reader<'a>,
    child: &Child<'a>,
    keys: Keys,
    rows: &mut Vec<Text>,
) -> Result<(), DocFault>
    requires { is_the element.CommonPrefixes child.now.element ≡ true }
    ensures value { OnOk result (Advances (PrefixesLeft (SpellsPrefix keys) rows.old.items)
        (PrefixesLeft (SpellsPrefix keys) rows.new.items) child.now reader.old.rest.now reader.new.rest.now) }
    ensures no_longer { length reader.new.rest.now ≤ length reader.old.rest.now }
    ensures refused { IfRefused result (Stops (PrefixesLeft (SpellsPrefix keys) rows.old.items)
        child.now reader.old.rest.now) }
    ensures size { reader.new.size ≡ reader.old.size }
    ensures well { OnOk result ((key : Form) (front : List (Option Element)) →
        ReadsWell (page_table key (prefix_form keys)) front child.now reader.old.rest.now reader.new.rest.now) }
    ensures broken { IfBroken result (λ reason. (key : Form) (front : List (Option Element)) →
        BreaksElement reader.old.size reason (page_table key (prefix_form keys)) front child.now reader.old.rest.now) }
{
    let row = read_prefix(reader, child, keys)?;
    let Ok(()) = rows.push(row) else {
        return Err(DocFault::Memory);
    };
    Ok(())
}

/// The name of the one encoding of keys.
struct UrlName;

impl Leaf for UrlName {
    type Value = ();

    ghost spells = { λ of text value. text ≡ codes "url" };

    ghost form = { AnEncoding };

    ghost alone = { λ of text v w a b. refl };

    ghost fits = { λ of text v s reason u. u.1 s };

    fn value_of(_: Global, of: Element, text: Meaning<'_>) -> Result<(), DocFault> {
        if text.as_str() != "url" {
            return Err(DocFault::BadText(of));
        }
        Ok(())
    }
}

/// Takes in the name of the encoding, of which `url` is the only one.
fn take_encoding<'a>(
    reader: &mut Reader<'a>,
    child: &Child<'a>,
    url: &mut bool,
) -> Result<(), DocFault>
    requires { is_the element.EncodingType child.now.element ≡ true }
    ensures value { OnOk result (Advances (EncodingLeft url.old) (EncodingLeft url.new)
        child.now reader.old.rest.now reader.new.rest.now) }
    ensures no_longer { length reader.new.rest.now ≤ length reader.old.rest.now }
    ensures refused { IfRefused result (Stops (EncodingLeft url.old) child.now reader.old.rest.now) }
    ensures size { reader.new.size ≡ reader.old.size }
    ensures named { OnOk result (url.new ≡ true) }
    ensures well { OnOk result ((key prefix : Form) (front : List (Option Element)) →
        url.old ≡ stood element.EncodingType front →
        ReadsWell (page_table key prefix) front child.now reader.old.rest.now reader.new.rest.now) }
    ensures broken { IfBroken result (λ reason. (key prefix : Form) (front : List (Option Element)) →
        url.old ≡ stood element.EncodingType front →
        BreaksElement reader.old.size reason (page_table key prefix) front child.now reader.old.rest.now) }
{
    if *url {
        return Err(DocFault::Twice(Element::EncodingType));
    }
    reader.leaf::<UrlName>(child, Element::EncodingType)?;
    *url = true;
    Ok(())
}

/// A page as it is written, with keys that may be those of URLs.
#[derive(Drop)]
pub(crate) struct Written {
    pub(crate) more: bool,
    pub(crate) token: Option<Text>,
    pub(crate) url: bool,
    pub(crate) entries: Vec<Entry>,
    pub(crate) prefixes: Vec<Text>,
}

impl Model for Written {
    ghost use Rattle.s3_replies.specs.Listing.{Page};

    ghost Value = { Page };

    ghost view = { λ w. record {
      more = w.more;
      token = w.token;
      url = w.url;
      entries = w.entries.items;
      prefixes = w.prefixes.items;
    } };
}

/// The fields of a page.
#[derive(Drop)]
struct PageFields {
    keys: Keys,
    more: Option<bool>,
    token: Option<Text>,
    url: bool,
    entries: Vec<Entry>,
    prefixes: Vec<Text>,
}

impl Parts for PageFields {
    type Whole = Written;

    ghost left = { λ s content page. PageLeft (SpellsKey s.keys) (SpellsPrefix s.keys)
        s.more s.token s.url s.entries.items s.prefixes.items content page };

    ghost table = { λ s. page_table (key_form s.keys) (prefix_form s.keys) };

    ghost knows = { λ s front. KnowsPage s.more s.token s.url front };

    fn take<'a>(&mut self, reader: &mut Reader<'a>, child: &Child<'a>) -> Result<(), DocFault> {
        if is_the(Element::Contents, child.element) {
            return take_object(reader, child, self.keys, &mut self.entries);
        }
        if is_the(Element::CommonPrefixes, child.element) {
            return take_prefix(reader, child, self.keys, &mut self.prefixes);
        }
        if is_the(Element::IsTruncated, child.element) {
            return reader.take::<Truth>(child, Element::IsTruncated, &mut self.more);
        }
        if is_the(Element::NextContinuationToken, child.element) {
            return reader.take::<FormedText>(
                child,
                Element::NextContinuationToken,
                &mut self.token,
            );
        }
        if is_the(Element::EncodingType, child.element) {
            return take_encoding(reader, child, &mut self.url);
        }
        reader.skip(child)
    }

    fn whole(self, _: Global) -> Result<Written, DocFault> {
        let PageFields {
            keys: _,
            more,
            token,
            url,
            entries,
            prefixes,
        } = self;
        match more {
            Some(more) => Ok(Written {
                more,
                token,
                url,
                entries,
                prefixes,
            }),
            None => Err(DocFault::Missing(Element::IsTruncated)),
        }
    }
}

/// The page inside the root of a document, as it is written.
pub(crate) fn written_page<'a>(
    reader: &mut Reader<'a>,
    root: &Tag<'a>,
    keys: Keys,
) -> Result<Written, DocFault>
    ensures value { IfOk result (HoldsAs (HasPageBy (SpellsKey keys) (SpellsPrefix keys))
        root.now reader.old.rest.now reader.new.rest.now) }
    ensures no_longer { length reader.new.rest.now ≤ length reader.old.rest.now }
    ensures refused { IfRefused result (HoldsNone (HasPageBy (SpellsKey keys) (SpellsPrefix keys))
        root.now reader.old.rest.now) }
    ensures size { reader.new.size ≡ reader.old.size }
    ensures well { OnOk result (HoldsWell (page_table (key_form keys) (prefix_form keys))
        root.now reader.old.rest.now reader.new.rest.now) }
    ensures broken { IfBroken result (λ reason.
        BreaksIn reader.old.size reason (page_table (key_form keys) (prefix_form keys)) []
        root.now reader.old.rest.now) }
{
    let fields = PageFields {
        keys,
        more: None,
        token: None,
        url: false,
        entries: Vec::new(reader.alloc),
        prefixes: Vec::new(reader.alloc),
    };
    reader.inside(root, fields)
}
