//! The laws, functions that do nothing.

ghost use Rattle.run_steps.specs.Following.{EachSettles, GivenAgain, GivenFirst, JobsBegin, JobsMade, LinesLeaveJobs};
ghost use Rattle.run_steps.specs.Following.{OneSettles};

/// No task has jobs at the start of a run, and each task that is made has those of its work.
pub fn jobs_begin_with_tasks()
    ensures begin { JobsBegin }
    ensures made { JobsMade }
{}

/// Each task that goes on has the share of each job that was not given, whatever happens.
pub fn jobs_follow_events()
    ensures first { GivenFirst }
    ensures again { GivenAgain }
    ensures one { OneSettles }
    ensures each { EachSettles }
    ensures lines { LinesLeaveJobs }
{}
