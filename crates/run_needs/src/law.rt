//! The laws, functions that do nothing.

ghost use Rattle.run_needs.specs.Entries.{JournalsFit};
ghost use Rattle.run_needs.specs.Moves.{RunsAreFinite};

/// The journal of a run has at most as many entries as its tasks can come to.
pub fn journals_fit()
    ensures { JournalsFit }
{}

/// A run comes to an end: no more happens in it than its tasks can come to, cancels apart.
pub fn runs_are_finite()
    ensures { RunsAreFinite }
{}
