//! Small histories that show the rule: functions that do nothing.

ghost use Rattle.jobs.specs.Holders.{Holder};
ghost use Rattle.jobs.specs.declared.what.What.{What};
ghost use Rattle.task_acts.specs.Examples.{
  AbortsLast,
  CutShort,
  FilesTell,
  LeftOpen,
  MovesLast,
  PartIsRefused,
  PartsInOrder,
  RangeFails,
  RangesInAnyOrder,
  RenamedOrDropped,
  SourceChanges,
};

/// An upload in parts is created, read, sent and completed in that order, whatever the order in which its parts come
/// back. After a refusal no part is given, and the upload is aborted once all came.
pub fn uploads()
    ensures order { (for : What) (cell : Holder) → PartsInOrder for cell }
    ensures refused { (for : What) (cell : Holder) → PartIsRefused for cell }
    ensures aborts { (for : What) (cell : Holder) → AbortsLast for cell }
{}

/// Ranges come in any order; after a failure the temporary file is dropped once all came.
pub fn downloads()
    ensures order { (for : What) (cell : Holder) → RangesInAnyOrder for cell }
    ensures refused { (for : What) (cell : Holder) → RangeFails for cell }
    ensures dropped { (for : What) (cell : Holder) → RenamedOrDropped for cell }
{}

/// The source of a move goes last.
pub fn moves()
    ensures { (for : What) (cell : Holder) → MovesLast for cell }
{}

/// A job that its cell cut short is given again, a lost answer leaves it open what happened, and a refusal with the
/// status 412 says that the source has changed.
pub fn refusals()
    ensures again { (for : What) (cell : Holder) → CutShort for cell }
    ensures open { (for : What) (cell : Holder) → LeftOpen for cell }
    ensures changed { (for : What) (cell : Holder) → SourceChanges for cell }
{}

/// Calls on files decide what requests do not.
pub fn files()
    ensures { (for : What) (cell : Holder) → FilesTell for cell }
{}
