//! The law, a function that does nothing.

ghost use Rattle.task_outcomes.specs.Causes.{OutcomesHaveCauses};
ghost use Rattle.task_outcomes.specs.Witness.{ToldIsMet};

use world_laws::Command;

/// In a run of many tasks each outcome is the one that the promise of a run says, with the cause that its talks, its
/// calls on files and its cancel show: Done, Copied, Unknown and Failed, for every kind of task, whatever came back and
/// wherever the run was cancelled.
pub fn outcomes_have_causes<C: Command>()
    ensures causes { OutcomesHaveCauses C.shows C.has_status C.call_failed }
    ensures met { ToldIsMet }
{}
