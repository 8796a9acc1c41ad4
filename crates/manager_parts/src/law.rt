//! The laws, functions that do nothing.

ghost use Rattle.manager_parts.specs.Counts.{TablesCount};

/// A table that says of each piece whether it holds a part has as many parts lent as the run.
pub fn tables_count()
    ensures { TablesCount }
{}
