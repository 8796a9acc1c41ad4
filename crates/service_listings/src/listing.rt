//! What was listed, and what `ls` shows of it.

ghost use Rattle.std.specs.Prelude.{◌≡◌, IfOk};
ghost use Rattle.service_listings.specs.Listings.{IsDatedListing, IsShownAs, finds_nothing};

use list_walk::Pages;
use listing_rows::{buckets_text, listing_text};
use s3_model::{Entries, OutOfMemory, Text};
use std::alloc::Global;

/// What a service has listed.
#[derive(Drop)]
pub enum Listing {
    /// Its buckets.
    Buckets(Entries),
    /// All pages of a bucket.
    Pages(Pages),
}

/// What `ls` has to show.
#[derive(Drop)]
pub struct Shown {
    /// A row of each prefix and of each object, or of each bucket.
    pub text: Text,
    /// A key was given, and nothing has it or stands below it.
    pub missed: bool,
}

/// Whether a key was given and nothing has it or stands below it.
fn finds_nothing(key: &str, pages: &Pages) -> bool
    ensures { result ≡ finds_nothing key.now pages.now.gathered }
{
    !key.is_empty() && pages.entries().is_empty() && pages.prefixes().is_empty()
}

impl Listing {
    /// What `ls` shows of the listing of a key, or of all buckets (AWS CLI Command Reference, `s3 ls`): under
    /// `recursive` each has its whole name. The times lie before the year 10000.
    pub fn rows(&self, alloc: Global, key: &str, recursive: bool) -> Result<Shown, OutOfMemory>
        requires dated { IsDatedListing self.now }
        ensures rows { IfOk result (IsShownAs key.now recursive self.now) }
    {
        match self {
            Listing::Buckets(buckets) => Ok(Shown {
                text: buckets_text(alloc, buckets)?,
                missed: false,
            }),
            Listing::Pages(pages) => Ok(Shown {
                text: listing_text(alloc, pages, recursive)?,
                missed: finds_nothing(key, pages),
            }),
        }
    }
}
