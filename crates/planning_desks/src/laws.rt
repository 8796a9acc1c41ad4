//! The laws of a planning whose lanes are joined, a function that does nothing.

ghost use Rattle.std.specs.Prelude.{[]};
ghost use Rattle.planning_desks.specs.PlanningDesks.{DesksAreJoined};
ghost use Rattle.planning_questions.specs.Traced.{IsBetween};

use s3_outside::Wire;

/// What was made at a fresh desk is joined to what its lanes carried, once it is closed, so that each completion is
/// that of its own job; and a planning begins behind a trace with nothing in it, at number 0.
pub fn desks_are_joined<W: Wire>()
    ensures joined { DesksAreJoined W.seen W.faults }
    ensures begins { IsBetween 0 [] }
{}
