//! The laws, functions that do nothing.

ghost use Rattle.queue_laws.specs.Holding.{BackLeaves, FreestIsFreest, LanesBegin, OthersStay, OutIsOut, SentJoins};
ghost use Rattle.queue_laws.specs.ReadyActs.{CallsAreFirst, GivingsAreFirst};

/// Lanes that begin empty, take each job that is sent behind the others, and give back the oldest, hold after any
/// events what the rule says is out; their freest lane is that of the rule, and they have as many jobs out.
pub fn lanes_hold()
    ensures begin { LanesBegin }
    ensures sent { SentJoins }
    ensures back { BackLeaves }
    ensures others { OthersStay }
    ensures freest { FreestIsFreest }
    ensures out { OutIsOut }
{}

/// Where the sort of act that each task is ready for is known, the first call on files is that of the least task that
/// can make one, and the first job that of the least task that can give one.
pub fn ready_acts_are_first()
    ensures calls { CallsAreFirst }
    ensures givings { GivingsAreFirst }
{}
