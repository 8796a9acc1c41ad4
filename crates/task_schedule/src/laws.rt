//! The laws, functions that do nothing.

ghost use Rattle.task_schedule.specs.Asks.{AsksAreOfSchedule};
ghost use Rattle.task_schedule.specs.Breaks.{EachBreaksAlone};
ghost use Rattle.task_schedule.specs.Givings.{
  AbortedIsNotCompleted,
  AbortsComeLast,
  CreatedIsEnded,
  NoneIsGivenThrice,
  OnlyCutIsGivenAgain,
  SourcesGoAfterSuccess,
  StopsGivings,
};
ghost use Rattle.task_schedule.specs.Journals.{SharesKeepSchedule};
ghost use Rattle.task_schedule.specs.Outcomes.{MarksAreOfDispatches, OutcomesShow, SourcesGoOnceDecided};
ghost use Rattle.task_schedule.specs.Witness.{RunIsMet};

use world_laws::{Command, Reading};

/// A job that is formed when its act is ready asks what the schedule says of it, by the successes that came before.
pub fn jobs_ask_as_scheduled()
    ensures { AsksAreOfSchedule }
{}

/// The jobs of one task are given as the schedule says, whatever comes back and wherever the run is cancelled. A job is
/// given again only where it came back cut short, before a failure and a cancel, and never a third time. After a
/// failure or a cancel an Abort alone is given: after every other job has come, exactly where an upload was created and
/// not completed. The source of a move goes only after the success that decides its task.
pub fn jobs_are_given_as_scheduled()
    ensures again { OnlyCutIsGivenAgain }
    ensures thrice { NoneIsGivenThrice }
    ensures stops { StopsGivings }
    ensures last { AbortsComeLast }
    ensures ends { CreatedIsEnded }
    ensures aborted { AbortedIsNotCompleted }
    ensures sources { SourcesGoAfterSuccess }
{}

/// In a run of many tasks whose dispatches show what was sent and what came back, the jobs of its tasks keep to the
/// schedule. Some run meets what this takes, and for each premise but one some run breaks it alone.
pub fn shares_keep_schedule<R: Reading>()
    ensures keep { SharesKeepSchedule R.shows }
    ensures met { RunIsMet }
    ensures breaks { EachBreaksAlone }
{}

/// The outcome of a task shows what became of its deciding request and of the source of a move: Done and Copied that
/// it came with success, Failed that no attempt of it succeeded or was uncertain, Unknown that one was uncertain and
/// none a success. The source of a move is removed only once what the task is for has happened. The marks of that
/// request in the history of the task are those that the dispatches of the run show.
pub fn outcomes_show<C: Command>()
    ensures show { OutcomesShow }
    ensures sources { SourcesGoOnceDecided }
    ensures marks { MarksAreOfDispatches C.shows C.has_status C.call_failed }
{}
