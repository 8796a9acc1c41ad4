//! The law, a function that does nothing.

ghost use Rattle.run_progress.specs.RunProgress.{OutIsInLanes, RunsEndWhole, TasksHaveEnded, WaitsAreForJobs};

/// A run with at least one lane, one place in each lane, one task at a time and one part, whose tasks have pieces, is
/// never stuck, whatever comes back and wherever it is cancelled. The rule ends it only once every task was made, has
/// its outcome and its line was due, and has it wait only while a job is in a lane. A job that is out is in a lane.
pub fn runs_get_on()
    ensures ends { RunsEndWhole }
    ensures outcomes { TasksHaveEnded }
    ensures waits { WaitsAreForJobs }
    ensures out { OutIsInLanes }
{}
