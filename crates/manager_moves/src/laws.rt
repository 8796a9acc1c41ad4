//! The laws of the rule, functions that do nothing.

ghost use Rattle.manager_moves.specs.Laws.{BuffersAreKept, JobsGoToTheFreest, JournalsKeepBuffers, LanesKeepTheirDepth, PartsAreEnough};
ghost use Rattle.manager_moves.specs.Laws.{QueueIsKept, SharesAreHistories};

/// A job goes to the freest lane, no lane has more jobs out than it takes, the tasks together hold at most as many parts
/// as there are, at most so many jobs that take a part are out in all lanes, as the journal shows too, and at most so many tasks are made and unfinished as the queue holds.
pub fn rule_keeps_limits()
    ensures freest { JobsGoToTheFreest }
    ensures depth { LanesKeepTheirDepth }
    ensures parts { PartsAreEnough }
    ensures buffers { BuffersAreKept }
    ensures journal { JournalsKeepBuffers }
    ensures queue { QueueIsKept }
{}

/// What a run gives each of its tasks is a history that can come about by the rule of one task.
pub fn shares_are_histories()
    ensures { SharesAreHistories }
{}
