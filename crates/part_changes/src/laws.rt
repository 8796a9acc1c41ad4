//! The laws, functions that do nothing.

ghost use Rattle.part_changes.specs.Changes.{CallChangesPart, CallMovesNoPart, CancelFreesParts, GivingSendsPart};
ghost use Rattle.part_changes.specs.Changes.{GivingTakesPart, ReturnBringsPart, ReturnChangesPart};

/// In every history that can come about: which pieces of a task hold a part after a cancel, after a job was given,
/// after a call on files, and after a job came back; and of which of them the part is away with a job.
pub fn parts_change()
    ensures cancel { CancelFreesParts }
    ensures giving { GivingTakesPart }
    ensures sending { GivingSendsPart }
    ensures call { CallChangesPart }
    ensures call_moves { CallMovesNoPart }
    ensures back { ReturnChangesPart }
    ensures brings { ReturnBringsPart }
{}
