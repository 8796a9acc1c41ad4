//! The law of the jobs of lanes, a function that does nothing.

ghost use Rattle.lane_laws.specs.Runs.{JobsAreCarried};

/// Jobs that lanes carried, one after the other, are carried as the promise of a run says it.
pub fn jobs_are_carried()
    ensures { JobsAreCarried }
{}
