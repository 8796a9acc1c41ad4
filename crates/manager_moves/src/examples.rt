//! Small runs that show the rule: functions that do nothing.

ghost use Rattle.jobs.specs.Holders.{Holder};
ghost use Rattle.jobs.specs.declared.what.What.{What};
ghost use Rattle.s3_model.specs.declared.bytes.Part.{Part};
ghost use Rattle.manager_moves.specs.Examples.{
  CancelsEnd,
  DownloadsAreARun,
  FreeLanes,
  LinesInOrder,
  OneAfterTheOther,
  PartsAreShared,
  SmallUpload,
  UploadsAreRuns,
};

/// One small file goes up, move by move. That is a run that can come about, as are two uploads and a cancelled run.
pub fn uploads()
    ensures moves { (for : What) (cell : Holder) (part : Part) → SmallUpload for cell part }
    ensures met { (for : What) (cell : Holder) (part : Part) → UploadsAreRuns for cell part }
{}

/// A job goes to the lane with the fewest out, and lines come in the order of their tasks.
pub fn lanes()
    ensures free { (for : What) (cell : Holder) (part : Part) → FreeLanes for cell part }
    ensures lines { (for : What) (cell : Holder) (part : Part) → LinesInOrder for cell part }
{}

/// A Get that has no part waits for one, and holds back no other task. That is a run that can come about.
pub fn buffers()
    ensures moves { (for : What) (cell : Holder) (part : Part) → PartsAreShared for cell part }
    ensures met { (for : What) (cell : Holder) (part : Part) → DownloadsAreARun for cell part }
{}

/// At most so many tasks are made and unfinished as the queue holds.
pub fn queues()
    ensures { (for : What) (cell : Holder) (part : Part) → OneAfterTheOther for cell part }
{}

/// After a cancel each task ends, made or not.
pub fn cancels()
    ensures { (for : What) (cell : Holder) (part : Part) → CancelsEnd for cell part }
{}
