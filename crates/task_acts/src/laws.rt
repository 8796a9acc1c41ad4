//! The laws of the rule, functions that do nothing.

ghost use Rattle.task_acts.specs.Laws.{AbortsAreLast, CompletesAreWhole, SourcesGoLast, StopsBegin};

/// After a failure or a cancel nothing is begun: only an upload that was created is aborted, a temporary file dropped,
/// and the time of a renamed file set. An Abort comes once nothing else is out, a Complete after each part, and the
/// source of a move goes last.
pub fn rule_keeps_order()
    ensures stops { StopsBegin }
    ensures aborts { AbortsAreLast }
    ensures completes { CompletesAreWhole }
    ensures sources { SourcesGoLast }
{}
