//! Causes of outcomes.

ghost use Rattle.refused_outcomes.specs.LaterFailure.{DeletedSourcesAreMet, EachCopiedCauseIsRefused};
ghost use Rattle.refused_outcomes.specs.LaterFailure.{FirstFailuresAreMet, LaterFailuresAreRefused};
ghost use Rattle.refused_outcomes.specs.Moves.{EachMoveIsRefused};
ghost use Rattle.refused_outcomes.specs.OneRequest.{EachRequestCauseIsMet, EachRequestCauseIsRefused};
ghost use Rattle.refused_outcomes.specs.PutCauses.{EachPutCauseIsRefused};
ghost use Rattle.refused_outcomes.specs.Untried.{EachUntriedCauseIsRefused};

/// A task of which no job was given fails for what its setting and its calls on files show: a cancel, memory that ran
/// out, a call that failed, what stood in the way, or a file that changed. Where the setting or the calls do not show
/// that, this cause is refused. A dry run has the outcome Dry, and no other run has. A download that is not to replace
/// is skipped where a file stood at its place, and nowhere else.
pub fn untried_causes()
    ensures { EachUntriedCauseIsRefused }
{}

/// A small upload whose Put was refused at each of two attempts, was lost and then refused, or was lost at both,
/// has one outcome, with the cause of its last attempt. Every other outcome is refused, however its jobs are read.
pub fn put_causes()
    ensures { EachPutCauseIsRefused }
{}

/// A moved copy whose Delete was lost at both attempts is not done, skipped or dry, and is copied for that loss alone,
/// however the jobs of its run are read. (`everything` of `promise_examples` has it copied for that loss.)
pub fn moved_copies()
    ensures { EachMoveIsRefused }
{}

/// A Get that brought more than the whole fails for a bad reply, and is not done; one that brought the whole does not
/// fail for that. A copy that was denied with status 412 fails since its source changed, and with another status for
/// what the service said, and neither for the other cause. A download that is not to replace, whose Get was given
/// where a file stood, has no outcome; it is done where its place was free, or where it is to replace.
pub fn request_causes()
    ensures met { EachRequestCauseIsMet }
    ensures refused { EachRequestCauseIsRefused }
{}

/// An upload whose first part was denied, and whose second part was lost after that, fails for the denial. It has no
/// other outcome, and does not fail for the loss.
pub fn later_failures()
    ensures met { FirstFailuresAreMet }
    ensures refused { LaterFailuresAreRefused }
{}

/// A moved download whose Delete came with success is done, and not copied for any cause. No task is copied for a bad
/// reply to another request than a Delete, as to its Get.
pub fn copied_causes()
    ensures met { DeletedSourcesAreMet }
    ensures refused { EachCopiedCauseIsRefused }
{}
