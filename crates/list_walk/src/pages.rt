//! The walk over the pages of a listing.

ghost use Rattle.std.specs.Prelude.{◌≡◌, ◌≢◌, ◌==◌, None, Some, OnOk, OnErr, IfOk, IfErr, min};
ghost use Rattle.list_walk.specs.Pages.{AllBeginWith, count_of, ended, gathered_with, keys_fault};
ghost use Rattle.s3_model.specs.Entries.{IsAscending, keys_of};
ghost use Rattle.list_walk.specs.Pages.{new_walk, next_ask, prefixes_fault, refusal_of, total_of, whole_fault};
ghost use Rattle.list_walk.specs.Pages.{with_page};

use crate::items::{append, copy_all};
use crate::names::{check_names, last_name};
use s3_model::{Ask, BadListing, Entries, Listed, OutOfMemory, Text, Texts};
use std::alloc::Global;
use std::marker::Model;

/// How many pages in a row may have no entry, and one more.
const EMPTY_PAGES: u32 = 1_000;

/// How many keys and prefixes a listing may have.
const MOST_ENTRIES: usize = 1_000_000;

/// The listing of a prefix in a bucket, asked for and read page by page (Amazon S3 API, ListObjectsV2).
///
/// Contracts see what the pages that were taken have together, the token of the last of them, and whether the walk is
/// over.
#[derive(Drop)]
pub struct Pages {
    bucket: Text,
    prefix: Text,
    delimited: bool,
    entries: Entries,
    prefixes: Texts,
    empty: u32,
    token: Option<Text>,
    over: bool,
    alloc: Global,
}

impl Model for Pages {
    ghost use Rattle.list_walk.specs.Pages.{IsSound, Walk};

    ghost Value = { Walk };

    ghost view = { λ p. record {
      bucket = p.bucket;
      prefix = p.prefix;
      delimited = p.delimited;
      gathered = record { entries = p.entries.items; prefixes = p.prefixes.items; empty = p.empty };
      token = p.token;
      over = p.over;
    } };

    ghost invariant = { λ p. IsSound p.prefix
        (record { entries = p.entries.items; prefixes = p.prefixes.items; empty = p.empty }) };
}

fn is_empty(page: &Listed) -> bool
    ensures { result ≡ (count_of page.now == 0) }
{
    page.entries.is_empty() && page.prefixes.is_empty()
}

impl Pages {
    /// The walk before its first page; `delimited` asks for what is below each `/` behind the prefix as one prefix.
    pub fn make(
        alloc: Global,
        bucket: &str,
        prefix: &str,
        delimited: bool,
    ) -> Result<Pages, OutOfMemory>
        ensures { IfOk result (λ pages. pages ≡ new_walk bucket.now prefix.now delimited) }
    {
        Ok(Pages {
            bucket: Text::of(alloc, bucket)?,
            prefix: Text::of(alloc, prefix)?,
            delimited,
            entries: Entries::make(alloc),
            prefixes: Texts::make(alloc),
            empty: 0,
            token: None,
            over: false,
            alloc,
        })
    }

    /// The request for the next page: the first without a token, the others with that of the page before. None where
    /// the last page was read or a page was refused.
    pub fn ask(&self) -> Result<Option<Ask>, OutOfMemory>
        ensures { IfOk result (λ asked. asked ≡ next_ask self.now) }
    {
        if self.over {
            return Ok(None);
        }
        Ok(Some(Ask::List {
            bucket: self.bucket.copy()?,
            prefix: self.prefix.copy()?,
            delimited: self.delimited,
            token: Text::copy_option(&self.token)?,
        }))
    }

    /// Takes the page, or refuses it; after a refusal the walk is over, and has what it had.
    ///
    /// Refused are a name not above the one before it (in byte order, keys and prefixes apart), a name that does not
    /// begin with the prefix, more pages without a token, the 1,000th page in a row without an entry, and more than
    /// 1,000,000 entries, where keys and prefixes alike are entries. The keys are tried first, one after the other,
    /// then the prefixes, then the page as a whole. Where memory runs out, nothing of the page is kept.
    pub fn feed(&mut self, page: &Listed) -> Result<(), BadListing>
        ensures fits { OnOk result (refusal_of self.old.prefix self.old.gathered page.now ≡ None) }
        ensures taken { OnOk result (self.new ≡ with_page self.old page.now) }
        ensures refused { IfErr result (λ fault. fault ≢ BadListing.Memory
            → refusal_of self.old.prefix self.old.gathered page.now ≡ Some fault) }
        ensures over { OnErr result (self.new ≡ ended self.old) }
    {
        match self.take(page) {
            Ok(()) => Ok(()),
            Err(fault) => {
                self.over = true;
                Err(fault)
            }
        }
    }

    /// The entries of the pages that were taken, in order.
    pub fn entries(&self) -> &Entries
        ensures entries { result.now.items ≡ self.now.gathered.entries }
        ensures ascending { IsAscending (keys_of result.now.items) }
        ensures within { AllBeginWith self.now.prefix (keys_of result.now.items) }
    {
        &self.entries
    }

    /// The prefixes of the pages that were taken, in order.
    pub fn prefixes(&self) -> &Texts
        ensures prefixes { result.now.items ≡ self.now.gathered.prefixes }
        ensures ascending { IsAscending result.now.items }
        ensures within { AllBeginWith self.now.prefix result.now.items }
    {
        &self.prefixes
    }

    fn take(&mut self, page: &Listed) -> Result<(), BadListing>
        ensures fits { OnOk result (refusal_of self.old.prefix self.old.gathered page.now ≡ None) }
        ensures taken { OnOk result (self.new ≡ with_page self.old page.now) }
        ensures refused { IfErr result (λ fault. fault ≢ BadListing.Memory
            → refusal_of self.old.prefix self.old.gathered page.now ≡ Some fault) }
        ensures same { OnErr result (self.new ≡ self.old) }
    {
        self.check(page)?;
        match self.gather(page) {
            Ok(()) => Ok(()),
            Err(OutOfMemory) => Err(BadListing::Memory),
        }
    }

    fn check(&self, page: &Listed) -> Result<(), BadListing>
        ensures ok { OnOk result (refusal_of self.now.prefix self.now.gathered page.now ≡ None) }
        ensures err { IfErr result (λ fault. fault ≢ BadListing.Memory
            → refusal_of self.now.prefix self.now.gathered page.now ≡ Some fault) }
    {
        self.check_keys(page)?;
        self.check_prefixes(page)?;
        self.check_whole(page)
    }

    fn check_keys(&self, page: &Listed) -> Result<(), BadListing>
        ensures ok { OnOk result (keys_fault self.now.prefix self.now.gathered page.now ≡ None) }
        ensures err { IfErr result (λ fault. fault ≢ BadListing.Memory
            → keys_fault self.now.prefix self.now.gathered page.now ≡ Some fault) }
    {
        let last = last_name(self.entries.as_slice());
        check_names(self.prefix.as_str(), last, page.entries.as_slice())
    }

    fn check_prefixes(&self, page: &Listed) -> Result<(), BadListing>
        ensures ok { OnOk result (prefixes_fault self.now.prefix self.now.gathered page.now ≡ None) }
        ensures err { IfErr result (λ fault. fault ≢ BadListing.Memory
            → prefixes_fault self.now.prefix self.now.gathered page.now ≡ Some fault) }
    {
        let last = last_name(self.prefixes.as_slice());
        check_names(self.prefix.as_str(), last, page.prefixes.as_slice())
    }

    fn check_whole(&self, page: &Listed) -> Result<(), BadListing>
        ensures ok { OnOk result (whole_fault self.now.gathered page.now ≡ None) }
        ensures err { IfErr result (λ fault. whole_fault self.now.gathered page.now ≡ Some fault) }
    {
        if page.more && page.token.is_none() {
            return Err(BadListing::NoToken);
        }
        if self.empty_with(page) >= EMPTY_PAGES {
            return Err(BadListing::EmptyPages);
        }
        if self.total_with(page) > MOST_ENTRIES {
            return Err(BadListing::TooMany);
        }
        Ok(())
    }

    /// How many keys and prefixes there are with those of this page.
    fn total_with(&self, page: &Listed) -> usize
        ensures { result ≡ min (total_of (gathered_with self.now.gathered page.now)) usize.MAX }
    {
        let before = self.entries.len() + self.prefixes.len();
        let count = page.entries.len().saturating_add(page.prefixes.len());
        before.saturating_add(count)
    }

    /// How many pages in a row have no entry, this one the last.
    fn empty_with(&self, page: &Listed) -> u32
        ensures { result ≡ (gathered_with self.now.gathered page.now).empty }
    {
        if is_empty(page) { self.empty + 1 } else { 0 }
    }

    /// Adds copies of what the page has, all of them or none.
    fn gather(&mut self, page: &Listed) -> Result<(), OutOfMemory>
        requires { refusal_of self.old.prefix self.old.gathered page.now ≡ None }
        ensures ok { OnOk result (self.new ≡ with_page self.old page.now) }
        ensures err { OnErr result (self.new ≡ self.old) }
    {
        self.entries.reserve(page.entries.len())?;
        self.prefixes.reserve(page.prefixes.len())?;
        let token = Text::copy_option(&page.token)?;
        let entries = copy_all(self.alloc, page.entries.as_slice())?;
        let prefixes = copy_all(self.alloc, page.prefixes.as_slice())?;
        self.empty = self.empty_with(page);
        append(&mut self.entries, entries);
        append(&mut self.prefixes, prefixes);
        self.token = token;
        self.over = self.over || !page.more;
        Ok(())
    }
}
