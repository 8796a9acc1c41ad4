//! The laws, functions that do nothing.

ghost use Rattle.run_schedule.specs.Parts.{PartsRunsAreMet};
ghost use Rattle.run_schedule.specs.Runs.{JournalsShowSent, RunsAreScheduled, RunsKeepSchedule};
ghost use Rattle.run_schedule.specs.Witness.{WholeRunIsMet};

use world_laws::{Command, Reading};

/// The jobs that a run of many tasks sent are those that its journal and its logs show: each has its dispatch, in
/// order, with the marks that it came back with, and was given before or was not. The journal is that of the planning,
/// and behind it that of the run; and what came back ended as its last talk shows.
pub fn journals_show_sent<R: Reading>()
    ensures { JournalsShowSent R.shows }
{}

/// A run of many tasks that came to its end, whose jobs were carried, keeps to the schedule in its tasks; and with a
/// planning that keeps to it, in whole.
pub fn runs_keep_schedule<C: Command>()
    ensures tasks { RunsKeepSchedule C.shows }
    ensures whole { RunsAreScheduled C.shows C.plans }
    ensures met { WholeRunIsMet }
    ensures met_in_parts { PartsRunsAreMet }
{}
