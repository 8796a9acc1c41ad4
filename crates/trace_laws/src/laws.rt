//! The laws, functions that do nothing.

ghost use Rattle.trace_laws.specs.Joined.{CompletionsAreOwn, JobsComeAsGiven, NoneIsStranger, TracesHaveJobs};
ghost use Rattle.trace_laws.specs.Journals.{PlannedTracesAreOfLanes, TracesHaveGivings};
ghost use Rattle.trace_laws.specs.Witness.{NoneAreExchanged, NoneIsGivenTwice, TwoLanesAreMet};

use s3_outside::Wire;

/// Once the lanes of a trace are joined, each completion is that of the oldest pending job of its lane, whether or not
/// their wires are seen, and the jobs of tasks come back for what they were given. So no lanes exchanged their jobs,
/// and no job was given while it was pending.
pub fn completions_are_own<W: Wire>()
    ensures own { CompletionsAreOwn W.seen }
    ensures none { NoneIsStranger W.seen }
    ensures come { JobsComeAsGiven W.seen }
    ensures jobs { TracesHaveJobs }
    ensures exchanged { NoneAreExchanged W.seen }
    ensures twice { NoneIsGivenTwice }
{}

/// Where the wires of all lanes are seen, the journal of a trace shows its jobs, each with its own completion and the
/// talks that its wire gained by it, and the body of a Get that succeeded is the one that its last talk shows. Where
/// the planning came first, it is a run whose jobs lanes carried. Among such traces is one over two lanes, in which a
/// removal is stopped and given again while a job of the planning is pending.
pub fn traces_have_givings<W: Wire>()
    ensures givings { TracesHaveGivings W.seen }
    ensures planned { PlannedTracesAreOfLanes }
    ensures met { TwoLanesAreMet }
{}
