//! A page of a listing, with its keys unescaped.

ghost use Rattle.std.specs.Prelude.{◌≡◌, ℕ, List, Err, IfOk, OnOk, codes};
ghost use Rattle.std.specs.List.{AllZip};
ghost use Rattle.s3_model.specs.declared.answers.Listed.{Listed};
ghost use Rattle.s3_model.specs.declared.places.Entry.{Entry};
ghost use Rattle.reply_xml.specs.Breaks.{IfBroken};
ghost use Rattle.reply_xml.specs.Faults.{IfRefused, IsFault};
ghost use Rattle.reply_xml.specs.Places.{BeginsOtherwise, HasBytesBehind};
ghost use Rattle.reply_values.specs.UrlText.{MeansText};
ghost use Rattle.s3_replies.specs.Encodings.{BreaksPage};
ghost use Rattle.s3_replies.specs.Listing.{HasListing, IsListing, MeansEntry, MeansPage};

use crate::encodings::names_url;
use crate::keys::{Keys, decoded, keys_of};
use crate::listing::{Written, written_page};
use reply_values::is_key;
use reply_xml::{DocFault, Element, Reader, Tag};
use s3_model::{Entries, Entry, Listed, Text, Texts};
use std::alloc::Global;

/// An entry, by its written key.
fn entry_of(alloc: Global, url: bool, row: Entry) -> Result<Entry, DocFault>
    ensures value { IfOk result (λ entry. MeansEntry url row entry) }
    ensures refused { IfRefused result ((entry : Entry) → ¬ (MeansEntry url row entry)) }
{
    let Entry {
        key: written,
        size,
        etag,
        micros,
    } = row;
    let key = decoded(alloc, url, written)?;
    if !is_key(key.as_str()) {
        return Err(DocFault::BadText(Element::Key));
    }
    Ok(Entry {
        key,
        size,
        etag,
        micros,
    })
}

/// The entries, by their written keys.
pub(crate) fn entries_of(alloc: Global, url: bool, rows: Vec<Entry>) -> Result<Entries, DocFault>
    ensures value { IfOk result (λ entries. AllZip (MeansEntry url) rows.items entries.items) }
    ensures refused { IfRefused result ((entries : List Entry) → ¬ (AllZip (MeansEntry url) rows.items entries)) }
{
    let mut entries = Entries::make(alloc);
    if entries.reserve(rows.len()).is_err() {
        return Err(DocFault::Memory);
    }
    for row in rows {
        entries.push(entry_of(alloc, url, row)?);
    }
    Ok(entries)
}

/// The prefixes, by their written texts.
pub(crate) fn prefixes_of(alloc: Global, url: bool, rows: Vec<Text>) -> Result<Texts, DocFault>
    ensures value { IfOk result (λ prefixes. AllZip (MeansText url) rows.items prefixes.items) }
    ensures refused { IfRefused result ((prefixes : List (List ℕ)) → ¬ (AllZip (MeansText url) rows.items prefixes)) }
{
    let mut prefixes = Texts::make(alloc);
    if prefixes.reserve(rows.len()).is_err() {
        return Err(DocFault::Memory);
    }
    for row in rows {
        prefixes.push(decoded(alloc, url, row)?);
    }
    Ok(prefixes)
}

/// What a page says.
fn listed(alloc: Global, page: Written) -> Result<Listed, DocFault>
    ensures value { IfOk result (MeansPage page) }
    ensures refused { IfRefused result ((listed : Listed) → ¬ (MeansPage page listed)) }
{
    let Written {
        more,
        token,
        url,
        entries: rows,
        prefixes: roots,
    } = page;
    let entries = entries_of(alloc, url, rows)?;
    let prefixes = prefixes_of(alloc, url, roots)?;
    Ok(Listed {
        entries,
        prefixes,
        more,
        token,
    })
}

/// A page of a listing. Which fault is the first one is not said.
fn read_page(alloc: Global, doc: &[u8]) -> Result<Listed, DocFault>
    ensures value { IfOk result (IsListing doc.now) }
    ensures other_root { (place : ℕ) → BeginsOtherwise (codes "ListBucketResult") doc.now place →
        result ≡ Err (DocFault.NotADocument place) }
    ensures whole { OnOk result ((place : ℕ) →
        ¬ (HasBytesBehind (codes "ListBucketResult") HasListing doc.now place)) }
{
    let (mut reader, root) = match Reader::open(alloc, doc, "ListBucketResult") {
        Ok(parts) => parts,
        Err(fault) => return Err(fault),
    };
    let page = written_page(&mut reader, &root, Keys::Written)?;
    match reader.close(doc.len()) {
        Ok(()) => listed(alloc, page),
        Err(fault) => Err(fault),
    }
}

/// A page of a listing, with keys and prefixes that are judged where they stand. The encoding may be named behind them,
/// so it is looked for first.
fn read_judged(alloc: Global, doc: &[u8]) -> Result<Listed, DocFault>
    ensures value { IfOk result (λ listed. IsListing doc.now listed) }
    ensures refused { IfRefused result ((listed : Listed) → ¬ (IsListing doc.now listed)) }
    ensures broken { IfBroken result (BreaksPage doc.now) }
    ensures other_root { (place : ℕ) → BeginsOtherwise (codes "ListBucketResult") doc.now place →
        result ≡ Err (DocFault.NotADocument place) }
    ensures behind { (place : ℕ) → HasBytesBehind (codes "ListBucketResult") HasListing doc.now place →
        IsFault result (DocFault.NotADocument place) }
{
    let (mut reader, root) = match Reader::open(alloc, doc, "ListBucketResult") {
        Ok(parts) => parts,
        Err(fault) => return Err(fault),
    };
    let deep = Tag {
        name: root.name,
        element: root.element,
        closed: root.closed,
        room: doc.len(),
    };
    let url = names_url(&reader, &deep)?;
    let page = written_page(&mut reader, &root, keys_of(url))?;
    reader.close(doc.len())?;
    listed(alloc, page)
}

/// Reads a page of a listing. Where the page names the encoding `url`, keys and prefixes are unescaped, with `+` as a
/// space. Keys have 1 to 1,024 bytes, and entity tags 1 to 256 visible characters.
pub fn read_list(alloc: Global, doc: &[u8]) -> Result<Listed, DocFault>
    ensures value { IfOk result (λ listed. IsListing doc.now listed) }
    ensures refused { IfRefused result ((listed : Listed) → ¬ (IsListing doc.now listed)) }
    ensures broken { IfBroken result (BreaksPage doc.now) }
    ensures other_root { (place : ℕ) → BeginsOtherwise (codes "ListBucketResult") doc.now place →
        result ≡ Err (DocFault.NotADocument place) }
    ensures behind { (place : ℕ) → HasBytesBehind (codes "ListBucketResult") HasListing doc.now place →
        IsFault result (DocFault.NotADocument place) }
{
    match read_page(alloc, doc) {
        Ok(page) => Ok(page),
        Err(DocFault::Memory) => Err(DocFault::Memory),
        Err(_) => read_judged(alloc, doc),
    }
}
