//! Runs and traces with one thing changed, which the definitions refuse.

ghost use Rattle.promise_examples.specs.Alone.{EachWireBreaksAlone};
ghost use Rattle.promise_examples.specs.Lies.{EachLieIsRefused};
ghost use Rattle.promise_examples.specs.Misfits.{EachTraceIsRefused};
ghost use Rattle.promise_examples.specs.Orders.{EachOrderIsRefused};
ghost use Rattle.promise_examples.specs.Plannings.{EachPlanningIsRefused};
ghost use Rattle.promise_examples.specs.TraceBreaks.{EachTraceBreaksAlone};
ghost use Rattle.promise_examples.specs.Rules.{EachJobBreaksAlone, EachOrderBreaksAlone, EachPlanningBreaksAlone};
ghost use Rattle.promise_examples.specs.Refused.{EachJobIsRefused, EachWireIsRefused};

/// A small upload that was stored meets every definition. With one thing changed on its wires, of its jobs, of the
/// order of the jobs of larger tasks, or in its trace, no reading of the jobs does. Nor does any of a planning in two
/// pages with one thing changed. Nor does any bear out another outcome.
pub fn refused()
    ensures wires { EachWireIsRefused }
    ensures jobs { EachJobIsRefused }
    ensures orders { EachOrderIsRefused }
    ensures plannings { EachPlanningIsRefused }
    ensures traces { EachTraceIsRefused }
    ensures lies { EachLieIsRefused }
{}

/// Twenty of those changes on the wires break one clause of what is carried and no other: with one reading of its jobs
/// such a run keeps to the schedule, and all other clauses hold of it. Others break one clause of the schedule and no
/// other: with one reading of its jobs such a run is carried. And traces break one clause of fitting, of what a
/// service does or of honesty, and no other.
pub fn single_breaks()
    ensures wires { EachWireBreaksAlone }
    ensures jobs { EachJobBreaksAlone }
    ensures orders { EachOrderBreaksAlone }
    ensures plannings { EachPlanningBreaksAlone }
    ensures traces { EachTraceBreaksAlone }
{}
