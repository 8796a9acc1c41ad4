//! The laws, functions that do nothing.

ghost use Rattle.step_laws.specs.Following.{GivingTakesShare, ReadyJobsHaveShares, SharesBegin, SharesStay};
ghost use Rattle.step_laws.specs.Fitting.{GivenJobsFit};

/// A share is there for each job that was not given, whatever happens to the task.
pub fn shares_follow_histories()
    ensures begin { SharesBegin }
    ensures stay { SharesStay }
    ensures giving { GivingTakesShare }
{}

/// A job that a task is ready for, and that is not given again, has its share, and what it is given fits it.
pub fn ready_jobs_are_formed()
    ensures shares { ReadyJobsHaveShares }
    ensures fit { GivenJobsFit }
{}
