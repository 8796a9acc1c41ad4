//! Listings of buckets and objects.

ghost use Rattle.std.specs.Prelude.{◌≡◌, ◌↔◌, ◌++◌, ◌∷◌, [], ℕ, List, Option, OnOk, OnErr, IfOk, IsTrue};
ghost use Rattle.std.specs.FinMap.{keys};
ghost use Rattle.std.specs.Option.{option_copied};
ghost use Rattle.object_table.specs.Pages.{ComesAfter, IsBehind, name_text};
ghost use Rattle.object_table.specs.Refused.{IsNotRefused};
ghost use Rattle.s3_model.specs.declared.places.Entry.{Entry};
ghost use Rattle.s3_service.specs.Listing.{GoesOnAfter, IsEntryOf};
ghost use Rattle.s3_service.specs.ServiceState.{HasBucket};

use crate::fault::{Refusal, TableFault};
use crate::object::MemObject;
use crate::table::ObjectTable;
use s3_model::{Entries, Entry, Listed, OutOfMemory, Text, Texts};
use std::alloc::Global;
use text_maps::TextMap;

/// What a listing is of: the names under a prefix, by components where it is delimited.
#[derive(Clone, Copy)]
pub struct Query<'a> {
    pub prefix: &'a str,
    pub delimited: bool,
}

// A name of a listing: a key, or what stands for all keys that begin with it.
#[derive(Clone, Copy)]
enum Name<'a> {
    Key(&'a str),
    Prefix(&'a str),
}

impl<'a> Name<'a> {
    // The name of a key; None where it is not listed.
    fn of(key: &'a str, query: Query<'_>) -> Option<Name<'a>> {
        let rest = key.strip_prefix(query.prefix)?;
        if !query.delimited {
            return Some(Name::Key(key));
        }
        match rest.split_once('/') {
            Some((_, behind)) => key.strip_suffix(behind).map(Name::Prefix),
            None => Some(Name::Key(key)),
        }
    }

    fn text(self) -> &'a str
        ensures { result.now ≡ name_text self.entry }
    {
        match self {
            Name::Key(text) | Name::Prefix(text) => text,
        }
    }

    fn is_after(self, last: Option<&str>) -> bool
        ensures { IsTrue result ↔ ComesAfter (option_copied last.entry) (name_text self.entry) }
    {
        match last {
            Some(last) => last < self.text(),
            None => true,
        }
    }
}

fn empty_page(alloc: Global) -> Listed
    ensures { (last : Option (List ℕ)) → IsBehind last result }
{
    Listed {
        entries: Entries::make(alloc),
        prefixes: Texts::make(alloc),
        more: false,
        token: None,
    }
}

fn entry_of(alloc: Global, key: &str, object: &MemObject) -> Result<Entry, OutOfMemory>
    ensures { IfOk result (λ entry. IsEntryOf key.now object.now entry) }
{
    Ok(Entry {
        key: Text::of(alloc, key)?,
        size: object.bytes().len() as u64,
        etag: Text::of(alloc, object.etag())?,
        micros: object.micros(),
    })
}

fn add_key(
    alloc: Global,
    page: &mut Listed,
    key: &str,
    object: &MemObject,
) -> Result<(), OutOfMemory>
    ensures keys { OnOk result ((entry : Entry) × (entry.key ≡ key.now) ×
        (page.new.entries.items ≡ page.old.entries.items ++ entry ∷ [])) }
    ensures prefixes { page.new.prefixes ≡ page.old.prefixes }
{
    let entry = entry_of(alloc, key, object)?;
    page.entries.reserve(1)?;
    page.entries.push(entry);
    Ok(())
}

fn add_prefix(alloc: Global, page: &mut Listed, text: &str) -> Result<(), OutOfMemory>
    ensures keys { page.new.entries ≡ page.old.entries }
    ensures prefixes { OnOk result (page.new.prefixes.items ≡ page.old.prefixes.items ++ text.now ∷ []) }
{
    let text = Text::of(alloc, text)?;
    page.prefixes.reserve(1)?;
    page.prefixes.push(text);
    Ok(())
}

// Adds a name to a page; where it is a key, that of the object.
fn add_name(
    alloc: Global,
    page: &mut Listed,
    name: Name<'_>,
    object: &MemObject,
) -> Result<(), OutOfMemory>
    ensures { OnOk result ((last : Option (List ℕ)) → IsBehind last page.old →
        ComesAfter last (name_text name.entry) → IsBehind last page.new) }
{
    match name {
        Name::Key(key) => add_key(alloc, page, key, object),
        Name::Prefix(text) => add_prefix(alloc, page, text),
    }
}

// Lends a text, where there is one.
fn lent(text: &Option<Text>) -> Option<&str>
    ensures { option_copied result ≡ text.now }
{
    match text {
        Some(text) => Some(text.as_str()),
        None => None,
    }
}

fn is_full(page: &Listed, most: usize) -> bool {
    page.entries.len().saturating_add(page.prefixes.len()) >= most
}

// A text that no name of the page is before.
fn start_of<'a>(query: Query<'a>, after: Option<&'a str>) -> &'a str {
    match after {
        Some(last) if query.prefix < last => last,
        _ => query.prefix,
    }
}

// The names after a text, at most so many, and the last of them.
fn page_after(
    alloc: Global,
    objects: &TextMap<MemObject>,
    query: Query<'_>,
    after: Option<&str>,
    most: usize,
) -> Result<(Listed, Text), OutOfMemory>
    ensures behind { IfOk result (λ found. IsBehind (option_copied after.entry) found.0) }
{
    let start = String::from_str(alloc, start_of(query, after))?;
    let mut page = empty_page(alloc);
    let mut last = after;
    for (key, object) in objects.range_from(&start) {
        let Some(name) = Name::of(key.as_str(), query) else {
            break;
        };
        if !name.is_after(last) {
            continue;
        }
        if is_full(&page, most) {
            page.more = true;
            break;
        }
        add_name(alloc, &mut page, name, object)?;
        last = Some(name.text());
    }
    let last = Text::of(alloc, last.unwrap_or(""))?;
    Ok((page, last))
}

impl ObjectTable {
    /// The names of the buckets, in byte order.
    pub fn buckets(&self, alloc: Global) -> Result<Texts, OutOfMemory>
        ensures { IfOk result (λ names. names.items ≡ keys self.now.objects) }
    {
        self.objects.texts(alloc)
    }

    // A text after which a listing goes on.
    fn place_of(&self, token: Option<&str>) -> Result<Option<Text>, TableFault>
        ensures place { IfOk result (λ place. GoesOnAfter self.now (option_copied token.entry) place) }
        ensures willing { (last : Option (List ℕ)) → GoesOnAfter self.now (option_copied token.entry) last →
            IsNotRefused result }
    {
        let Some(token) = token else {
            return Ok(None);
        };
        match self.tokens.get(token) {
            Some(text) => Ok(Some(text.copy()?)),
            None => Err(TableFault::Refused(Refusal::InvalidArgument)),
        }
    }

    // A new token, for the place after a text.
    fn remember(&mut self, alloc: Global, last: Text) -> Result<Text, OutOfMemory>
        ensures objects { self.new.objects ≡ self.old.objects }
        ensures uploads { self.new.uploads ≡ self.old.uploads }
        ensures ended { self.new.ended ≡ self.old.ended }
        ensures same { OnErr result (self.new ≡ self.old) }
    {
        let token = self.new_name(alloc, "token")?;
        if self.tokens.has(token.as_str()) {
            return Err(OutOfMemory);
        }
        self.tokens.insert(alloc, token.as_str(), last)?;
        Ok(token)
    }

    // The page with a token for its end, where more names are left.
    fn with_token(
        &mut self,
        alloc: Global,
        mut page: Listed,
        last: Text,
    ) -> Result<Listed, OutOfMemory>
        ensures behind { IfOk result (λ marked. (place : Option (List ℕ)) → IsBehind place page →
            IsBehind place marked) }
        ensures objects { self.new.objects ≡ self.old.objects }
        ensures uploads { self.new.uploads ≡ self.old.uploads }
        ensures ended { self.new.ended ≡ self.old.ended }
        ensures same { OnErr result (self.new ≡ self.old) }
    {
        if !page.more {
            return Ok(page);
        }
        page.token = Some(self.remember(alloc, last)?);
        Ok(page)
    }

    /// The next names of a listing, at most so many: those after the place of the token. Where more are left, the page
    /// has a token for its own end. Nothing else changes.
    pub fn list(
        &mut self,
        alloc: Global,
        bucket: &str,
        query: Query<'_>,
        token: Option<&str>,
        most: usize,
    ) -> Result<Listed, TableFault>
        ensures bucket { OnOk result (HasBucket self.old bucket.now) }
        ensures behind { IfOk result (λ page. (last : Option (List ℕ)) ×
            GoesOnAfter self.old (option_copied token.entry) last × IsBehind last page) }
        ensures objects { self.new.objects ≡ self.old.objects }
        ensures uploads { self.new.uploads ≡ self.old.uploads }
        ensures ended { self.new.ended ≡ self.old.ended }
        ensures same { OnErr result (self.new ≡ self.old) }
        ensures willing { (last : Option (List ℕ)) → GoesOnAfter self.old (option_copied token.entry) last →
            HasBucket self.old bucket.now → IsNotRefused result }
    {
        let place = self.place_of(token)?;
        let after = lent(&place);
        let Some(objects) = self.objects.get(bucket) else {
            return Err(TableFault::Refused(Refusal::NoSuchBucket));
        };
        let (page, last) = page_after(alloc, objects, query, after, most)?;
        let page = self.with_token(alloc, page, last)?;
        Ok(page)
    }
}
