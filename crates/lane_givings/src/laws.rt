//! The laws, functions that do nothing.

ghost use Rattle.lane_givings.specs.Laws.{FirstHasNone, GivenJoins, JobsHaveRoom, JobsInLanesAreOut};
ghost use Rattle.lane_givings.specs.Laws.{JobsStandOnce, NoneIsOut, OldestMayReturn, OthersLeave, ReturnedLeaves};

/// In every run a job in a lane is out, and stands there once. At its first giving it has made no attempt.
pub fn jobs_are_out()
    ensures out { JobsInLanesAreOut }
    ensures once { JobsStandOnce }
    ensures first { FirstHasNone }
{}

/// What lanes hold after each event of a run, and that the oldest job of a lane may come back.
pub fn jobs_are_as_given()
    ensures none { NoneIsOut }
    ensures joins { GivenJoins }
    ensures returns { OldestMayReturn }
    ensures room { JobsHaveRoom }
    ensures leaves { ReturnedLeaves }
    ensures others { OthersLeave }
{}
