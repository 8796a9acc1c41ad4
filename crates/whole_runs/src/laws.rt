//! The laws, functions that do nothing.

ghost use Rattle.whole_runs.specs.Buffers.{JournalsKeepParts};
ghost use Rattle.whole_runs.specs.Carried.{CarriedJobsAreAsked, CarriedRunsAreAsked};
ghost use Rattle.whole_runs.specs.Ended.{PlacesTellCancels, RunsAreWhole, RunsEndOver, RunsKeepWholeSchedule};
ghost use Rattle.whole_runs.specs.Ended.{TasksKeepSchedule};
ghost use Rattle.whole_runs.specs.Given.{JobsAreAsked, JobsAreFormed, JobsGoOn};
ghost use Rattle.whole_runs.specs.Witness.{CarriedJobIsMet, CarriedRunIsMet, CarriedRunsAreMet, GivenAgainIsMet};

use world_laws::{Command, Reading};

/// Where each job is handed out as its task says, and comes back as it was given, it was formed when its act was ready,
/// also where it is given again, and its dispatch asks that. Whether they are handed out and come back so is told event
/// by event. Some run in which a job is given again meets it.
pub fn jobs_are_asked()
    ensures formed { JobsAreFormed }
    ensures asked { JobsAreAsked }
    ensures go_on { JobsGoOn }
    ensures met { GivenAgainIsMet }
{}

/// A dispatch of a job that a lane carried asks what the job's task says, where the job was formed as the task says and
/// its part had the bytes of its piece. Some Put meets it that a lane carried, over a wire that gained its talk, and so
/// does the run of that Put.
pub fn carried_jobs_are_asked()
    ensures jobs { CarriedJobsAreAsked }
    ensures runs { CarriedRunsAreAsked }
    ensures met { CarriedJobIsMet }
    ensures met_in_run { CarriedRunsAreMet }
{}

/// A run that the rule ends is over: each task was made, has its outcome and its line, and each job that was sent came
/// back. The place of its first cancel in the journal tells what a setting tells of cancels. Behind a planning that
/// takes no parts its journal keeps to the buffers.
pub fn runs_end_over()
    ensures over { RunsEndOver }
    ensures cancels { PlacesTellCancels }
    ensures parts { JournalsKeepParts }
{}

/// A run at its end, whose jobs were handed out as its tasks say and were carried so, is a whole run: its tasks keep to
/// the schedule, and with a planning that keeps to it, the run does in whole. Some run is carried
/// out so.
pub fn ended_runs_keep_schedule<C: Command>()
    ensures whole { RunsAreWhole C.shows }
    ensures tasks { TasksKeepSchedule C.shows }
    ensures all { RunsKeepWholeSchedule C.shows C.plans }
    ensures met { CarriedRunIsMet }
{}
