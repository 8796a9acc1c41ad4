//! The laws, functions that do nothing.

ghost use Rattle.run_causes.specs.Causes.{RunsAreOfLanes, RunsHaveCauses};
ghost use Rattle.run_causes.specs.Outcomes.{ClaimsTell, NoneIsCancelledByFailing, OutcomesTell};
ghost use Rattle.run_causes.specs.Witness.{CutRunIsMet, NoneIsGivenLate};

/// In a run that came to its end, each job had an attempt left when it was given, one that is given again was cut
/// short, and the setting tells which jobs wanted memory, and what stopped those that came back early: such a job is
/// given again, or something had stopped its task before it came, or did so before the end. The setting tells of memory
/// what the outcomes of its tasks and the jobs of the planning say, and of cancels and of failed calls what happened.
/// So it is a run whose jobs lanes carried. Among such runs is one of a removal that its cell cuts, and that is given
/// again; one in which it is given again behind its end is none.
pub fn runs_have_causes()
    ensures causes { RunsHaveCauses }
    ensures lanes { RunsAreOfLanes }
    ensures met { CutRunIsMet }
    ensures late { NoneIsGivenLate }
{}

/// In a run at its end, the setting by the outcomes of its tasks tells which of those that failed did so first by a
/// call on files or for want of memory, and for which memory ran out. The setting that a run claims is such a one.
pub fn outcomes_tell_settings()
    ensures outcomes { OutcomesTell }
    ensures claims { ClaimsTell }
{}

/// No outcome names as its cause that the task was cancelled since it failed itself: such a reason stops jobs alone,
/// and a job that it stopped is no failure.
pub fn none_is_cancelled_by_failing()
    ensures none { NoneIsCancelledByFailing }
{}
