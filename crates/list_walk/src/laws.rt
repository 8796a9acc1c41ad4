//! The laws of pages, a function that does nothing.

ghost use Rattle.list_walk.specs.Laws.{GathersInOrder, RefusedIsLast, TakenAreSound, TakenWhereSound, WalkGathers};

/// What [`crate::Pages`] has after any list of pages: the entries and prefixes of those that were taken, in order,
/// which ascend and begin with the prefix; and which page is refused.
pub fn pages_are_gathered()
    ensures in_order { GathersInOrder }
    ensures walk { WalkGathers }
    ensures sound { TakenAreSound }
    ensures taken { TakenWhereSound }
    ensures refused { RefusedIsLast }
{}
