//! Lists with room.

ghost use Rattle.std.specs.Prelude.{◌≡◌, ◌≤◌, [], IfOk};

use s3_model::{List, OutOfMemory};
use std::alloc::Global;

/// An empty list with room for `n` items.
pub fn list_of<T: Drop>(alloc: Global, n: usize) -> Result<List<T>, OutOfMemory>
    ensures empty { IfOk result (λ list. list.items ≡ []) }
    ensures room { IfOk result (λ list. n ≤ list.spare) }
{
    let mut list = List::make(alloc);
    list.reserve(n)?;
    Ok(list)
}
