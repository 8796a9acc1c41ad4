//! What a page lists, and copies of it.

ghost use Rattle.std.specs.Prelude.{◌≡◌, ◌≤◌, ◌++◌, ℕ, List, IfOk, length};

use s3_model::{Entry, List, OutOfMemory, Text};
use std::alloc::Global;

/// An entry or a prefix of a page, which has its place in a listing by its name.
pub(crate) trait Item: Sized + Drop {
    ghost name_of: { Self → List ℕ };

    fn name(&self) -> &Text
        ensures { result.now ≡ name_of self.now };

    fn duplicate(&self) -> Result<Self, OutOfMemory>
        ensures { IfOk result (λ copy. copy ≡ self.now) };
}

impl Item for Text {
    ghost name_of = { λ t. t };

    fn name(&self) -> &Text {
        self
    }

    fn duplicate(&self) -> Result<Text, OutOfMemory> {
        self.copy()
    }
}

impl Item for Entry {
    ghost name_of = { λ e. e.key };

    fn name(&self) -> &Text {
        &self.key
    }

    fn duplicate(&self) -> Result<Entry, OutOfMemory> {
        Ok(Entry {
            key: self.key.copy()?,
            size: self.size,
            etag: self.etag.copy()?,
            micros: self.micros,
        })
    }
}

/// Copies of all items, in their order.
pub(crate) fn copy_all<T: Item>(alloc: Global, items: &[T]) -> Result<Vec<T>, OutOfMemory>
    ensures { IfOk result (λ copies. copies.items ≡ items.now) }
{
    let mut copies = Vec::with_capacity(alloc, items.len())?;
    for item in items {
        copies.push_reserved(item.duplicate()?);
    }
    Ok(copies)
}

/// Moves the items to the end of a list that has room for them.
pub(crate) fn append<T: Drop>(list: &mut List<T>, items: Vec<T>)
    requires { length items.items ≤ list.old.spare }
    ensures { list.new.items ≡ list.old.items ++ items.items }
{
    for item in items {
        list.push(item);
    }
}
