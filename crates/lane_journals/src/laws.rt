//! The laws, functions that do nothing.

ghost use Rattle.lane_journals.specs.Journals.{LanesAreJournaled, LanesEndAsShown, LanesTellStatuses};
ghost use Rattle.lane_journals.specs.Ranges.{RangesRunsAreOfLanes};
ghost use Rattle.lane_journals.specs.Witness.{UploadIsOfLanes};

use world_laws::Command;

/// What came back from a lane ended as the last talk of its dispatch shows, and where it was refused, with the status
/// of its last answer. It takes that each wire gained what the jobs of its lane say, and that what came back has the
/// ending that its lane gave it.
pub fn lanes_end_as_shown<C: Command>()
    ensures endings { LanesEndAsShown }
    ensures statuses { LanesTellStatuses C.call_failed }
{}

/// So the journal of a run whose jobs lanes carried is one that whole runs take. Among such runs are a small upload
/// over one lane, and a download over two in which a job is cut short and given again.
pub fn lanes_are_journaled()
    ensures journaled { LanesAreJournaled }
    ensures met { UploadIsOfLanes }
    ensures met_again { RangesRunsAreOfLanes }
{}
