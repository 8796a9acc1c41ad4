//! Lists that say where memory ran out.

ghost use Rattle.std.specs.Prelude.{◌≡◌, ◌+◌, ◌<◌, ◌≤◌, ◌↔◌, [], ◌∷◌, ◌++◌, length, IsTrue, OnErr, OnOk, IfOk, MatchOption, None, replicate, slice_get, Some};

use crate::outcomes::{Event, Outcome};
use crate::places::Entry;
use crate::tasks::{Task, Warning};
use crate::text::Text;
use std::alloc::{AllocError, AllocFailed, Global};
use std::marker::Model;

/// A call found no memory.
#[derive(Debug, Clone, Copy, PartialEq, Eq)]
pub struct OutOfMemory;

impl From<AllocError> for OutOfMemory {
    fn from(_: AllocError) -> OutOfMemory {
        OutOfMemory
    }
}

impl<T: Drop> From<AllocFailed<T>> for OutOfMemory {
    fn from(_: AllocFailed<T>) -> OutOfMemory {
        OutOfMemory
    }
}

/// A list with room that is reserved first and then pushed into without memory.
///
/// Contracts see `items`, and `spare`, the number of items that can be pushed before the next `reserve`.
#[derive(Drop)]
pub struct List<T> {
    inner: Vec<T>,
    spare: usize,
}

impl<T> Model for List<T> {
    ghost use Rattle.std.specs.Prelude.{◌+◌, ◌≤◌, vec_len, vec_capacity};
    ghost use Rattle.s3_model.specs.Lists.{Reserved};

    ghost Value = { Reserved T };

    ghost view = { λ l. record { items = l.inner.items; spare = l.spare } };

    ghost invariant = { λ l. vec_len l.inner + l.spare ≤ vec_capacity l.inner };
}

pub type Texts = List<Text>;

pub type Entries = List<Entry>;

pub type Tasks = List<Task>;

pub type Outcomes = List<Outcome>;

pub type Warnings = List<Warning>;

pub type Journal = List<Event>;

/// Names with their values.
pub type Pairs = List<(Text, Text)>;

impl<T: Drop> List<T> {
    /// An empty list, which takes no memory.
    pub fn make(alloc: Global) -> Self
        ensures { result.items ≡ [] }
    {
        List {
            inner: Vec::new(alloc),
            spare: 0,
        }
    }

    pub fn len(&self) -> usize
        ensures { result ≡ length self.now.items }
    {
        self.inner.len()
    }

    pub fn is_empty(&self) -> bool
        ensures { IsTrue result ↔ (self.now.items ≡ []) }
    {
        self.inner.is_empty()
    }

    /// The item of that place, counted from 0.
    pub fn at(&self, index: usize) -> Option<&T>
        ensures { MatchOption result (length self.now.items ≤ index)
            (λ item. slice_get self.now.items index ≡ Some item.now) }
    {
        self.inner.get(index)
    }

    /// The items in order.
    pub fn as_slice(&self) -> &[T]
        ensures { result.now ≡ self.now.items }
    {
        self.inner.as_slice()
    }

    /// Makes room for `n` more items.
    pub fn reserve(&mut self, n: usize) -> Result<(), OutOfMemory>
        ensures items { self.new.items ≡ self.old.items }
        ensures spare { OnOk result (n ≤ self.new.spare) }
        ensures kept { OnErr result (self.new.spare ≡ self.old.spare) }
    {
        self.inner.reserve(n)?;
        self.spare = self.spare.max(n);
        Ok(())
    }

    /// Adds an item at the end, without memory.
    pub fn push(&mut self, item: T)
        requires { 0 < self.old.spare }
        ensures items { self.new.items ≡ self.old.items ++ item ∷ [] }
        ensures spare { self.new.spare + 1 ≡ self.old.spare }
    {
        let Ok(()) = self.inner.push(item) else {
            unreachable!();
        };
        self.spare -= 1;
    }
}

/// So many places with nothing in them.
pub fn nones<T: Drop>(alloc: Global, count: usize) -> Result<Vec<Option<T>>, OutOfMemory>
    ensures { IfOk result (λ places. places.items ≡ replicate count None) }
{
    let mut places = Vec::with_capacity(alloc, count)?;
    for _ in 0..count {
        places.push(None)?;
    }
    Ok(places)
}
