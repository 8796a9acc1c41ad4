//! Which relative paths are kept.

ghost use Rattle.std.specs.Prelude.{◌≡◌, ◌∷◌, ◌++◌, [], OnOk, OnErr};
ghost use Rattle.std.specs.Str.{chars};

use crate::patterns::Pattern;
use s3_model::OutOfMemory;
use std::alloc::Global;
use std::marker::Model;

/// Whether the paths that a pattern matches are kept.
#[derive(Drop)]
pub struct Filter {
    pub keep: bool,
    pub pattern: Pattern,
}

/// Filters of relative paths, of which the last that matches decides.
#[derive(Drop)]
pub struct Filters {
    inner: Vec<Filter>,
}

impl Model for Filters {
    ghost use Rattle.std.specs.Prelude.{List};
    ghost use Rattle.path_filters.specs.declared.filters.Filter.{Filter};

    ghost Value = { List Filter };

    ghost view = { λ f. f.inner.items };
}

impl Filters {
    ghost use Rattle.path_filters.specs.Filters.{Keeps, is_kept};

    /// No filters, which keep every path. It takes no memory.
    pub fn make(alloc: Global) -> Filters
        ensures { result ≡ [] }
    {
        Filters {
            inner: Vec::new(alloc),
        }
    }

    /// Adds a filter, which decides before those that were added earlier.
    pub fn push(&mut self, keep: bool, pattern: Pattern) -> Result<(), OutOfMemory>
        ensures ok { OnOk result (self.new ≡ self.old ++ record { keep = keep; pattern = pattern } ∷ []) }
        ensures err { OnErr result (self.new ≡ self.old) }
    {
        self.inner.push(Filter { keep, pattern })?;
        Ok(())
    }

    /// Whether the path is kept: as the last filter says whose pattern matches it, and so where none does.
    pub fn keeps(&self, rel: &str) -> bool
        ensures last { Keeps self.now (chars rel.now) result }
        ensures value { result ≡ is_kept self.now (chars rel.now) }
    {
        let mut left = self.inner.as_slice();
        while let Some((filter, before)) = left.split_last() {
            if filter.pattern.matches(rel) {
                return filter.keep;
            }
            left = before;
        }
        true
    }
}
