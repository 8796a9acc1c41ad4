//! Runs that gave up untried.

ghost use Rattle.promise_examples.specs.EarlyEnd.{EachEarlyEndIsRefused, EarlyEndIsMet};
ghost use Rattle.promise_examples.specs.Idleness.{IdlenessIsRefused};

/// A run that fails and never tried is not done where the service is willing, whatever cause it names, unless a file
/// call failed, memory ran out or the run was cancelled.
pub fn idleness()
    ensures { IdlenessIsRefused }
{}

/// A run of a plan without an outcome is truthful where its status is 70 and no job was given. It is not where the Put
/// of its task was given, stored or not tried, or where its status is another one.
pub fn early_end()
    ensures met { EarlyEndIsMet }
    ensures refused { EachEarlyEndIsRefused }
{}
