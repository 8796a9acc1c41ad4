//! The laws, functions that do nothing.

ghost use Rattle.part_tables.specs.Finding.{PlacingFindsPart, ReadingFindsFree, ReturningFindsAway, SendingFindsPart};
ghost use Rattle.part_tables.specs.Tables.{AlikeUnfreed, CallingPutsPart, CancelLeavesParts, EmptyTablesBegin};
ghost use Rattle.part_tables.specs.Tables.{FreeingSettlesTask, KeptJobsWait, LastPutCounts, OthersMoveNoPart};
ghost use Rattle.part_tables.specs.Tables.{ReturningBringsPart, SendingTakesPart};

/// A table that says which pieces hold a part, and of which of them the part is with the job of the piece, says so
/// after each event of a run, if what the event moves is moved in it. A job is with its task, to be given again,
/// exactly where its stage says so.
pub fn tables_follow_runs()
    ensures begins { EmptyTablesBegin }
    ensures last { LastPutCounts }
    ensures others { OthersMoveNoPart }
    ensures sending { SendingTakesPart }
    ensures back { ReturningBringsPart }
    ensures call { CallingPutsPart }
    ensures cancel { CancelLeavesParts }
    ensures kept { KeptJobsWait }
    ensures freeing { FreeingSettlesTask }
    ensures alike { AlikeUnfreed }
{}

/// Where the next move wants a part, it is found: with the job that is kept, as the piece's own, or as a free one. Where
/// a job comes back, its part is away.
pub fn calls_find_parts()
    ensures sending { SendingFindsPart }
    ensures back { ReturningFindsAway }
    ensures reading { ReadingFindsFree }
    ensures placing { PlacingFindsPart }
{}
