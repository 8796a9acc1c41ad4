//! The laws, functions that do nothing.

ghost use Rattle.manager_laws.specs.Ends.{EndsAreWhole, JournalsAreTold, ManagerKeepsSchedule, ManagerKeepsTasks};
ghost use Rattle.manager_laws.specs.Ends.{JobsAreHandedOut};
ghost use Rattle.manager_laws.specs.Witness.{ManagerRunIsMet};

use world_laws::Command;

/// Where the next move of a manager is the end, its run is over: each task has its outcome, and each job came back. The
/// works of the run are those of its plan, and its journal is that of the planning and behind it that of the run. At
/// each moment it keeps to the buffers, and no more has happened than the tasks can come to. Some run of one small
/// upload meets it.
pub fn manager_ends_runs()
    ensures over { EndsAreWhole }
    ensures journal { JournalsAreTold }
    ensures jobs { JobsAreHandedOut }
    ensures met { ManagerRunIsMet }
{}

/// A run of a manager that came to its end keeps to the schedule in its tasks, where its jobs were carried as they were
/// given, and cancels and failed calls are told; with a planning that keeps to the schedule it does in whole. Some run
/// of one small upload meets it.
pub fn manager_keeps_schedule<C: Command>()
    ensures tasks { ManagerKeepsTasks C.shows }
    ensures whole { ManagerKeepsSchedule C.shows C.plans }
    ensures met { ManagerRunIsMet }
{}
