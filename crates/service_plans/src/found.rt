//! The entries of one side of a plan.

ghost use Rattle.std.specs.Prelude.{◌≡◌, ◌++◌, ◌∷◌, [], IfOk, OnOk, map};
ghost use Rattle.service_plans.specs.Sides.{HasEntries, entries_in};

use list_walk::Pages;
use s3_model::{Entries, Warnings};
use std::alloc::Global;

/// Where the entries of a side are.
#[derive(Drop)]
pub enum Side {
    /// In the pages of a listing.
    Listed(Pages),
    /// In a list of their own.
    Held(Entries),
}

/// The entries of a side, and what looking at it warns of.
#[derive(Drop)]
pub struct Found {
    pub side: Side,
    pub looked: Warnings,
}

impl Side {
    pub(crate) fn entries(&self) -> &Entries
        ensures { result.now.items ≡ entries_in self.now }
    {
        match self {
            Side::Listed(pages) => pages.entries(),
            Side::Held(entries) => entries,
        }
    }
}

impl Found {
    /// What the pages of a listing have.
    pub(crate) fn listed(alloc: Global, pages: Pages) -> Found
        ensures { HasEntries result pages.gathered.entries }
    {
        Found {
            side: Side::Listed(pages),
            looked: Warnings::make(alloc),
        }
    }

    /// These entries.
    pub(crate) fn held(alloc: Global, entries: Entries) -> Found
        ensures { HasEntries result entries.items }
    {
        Found {
            side: Side::Held(entries),
            looked: Warnings::make(alloc),
        }
    }
}
