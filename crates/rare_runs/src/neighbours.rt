//! Runs that meet a definition, and their neighbours with one thing changed, which it refuses.

ghost use Rattle.rare_runs.specs.FileNeighbours.{BuffersAreMet, BuffersAreRefused, FileCallsAreMet};
ghost use Rattle.rare_runs.specs.FileNeighbours.{FileCallsAreRefused, OtherFilesAreMet, OtherFilesAreRefused};
ghost use Rattle.rare_runs.specs.MovedUpload.{EarlyRemovalIsRefused, MovedUploadIsMet};
ghost use Rattle.rare_runs.specs.SettingFields.{EachFieldBreaksAlone};
ghost use Rattle.rare_runs.specs.Settings.{EachSettingIsRefused, SettingIsMet};

/// A cancelled run of four uploads, one of which is done and three of which failed, each for another cause, has the
/// setting that follows from what it came to. With one field of it changed it has not; fourteen of these neighbours
/// break one clause of that and no other, each of its ten clauses at least once.
pub fn setting()
    ensures met { SettingIsMet }
    ensures refused { EachSettingIsRefused }
    ensures alone { EachFieldBreaksAlone }
{}

/// Parts that are out one at a time keep to one buffer, and two at a time to two. No two jobs that hold a buffer keep
/// to one where both are out.
pub fn buffers()
    ensures met { BuffersAreMet }
    ensures refused { BuffersAreRefused }
{}

/// A run that leaves a temporary file, with its warning, changes no other file. That is not so of one after which a
/// file of no task is new, the file of an upload differs or is gone, a temporary file stays without a warning, or a
/// file with such a name is gone that was there before.
pub fn other_files()
    ensures met { OtherFilesAreMet }
    ensures refused { OtherFilesAreRefused }
{}

/// The calls of a run that removes a file, downloads one, and fails to download another keep to their clauses. They do
/// not with one call moved, left out, repeated or changed, nor in another setting or with other warnings.
pub fn file_calls()
    ensures met { FileCallsAreMet }
    ensures refused { FileCallsAreRefused }
{}

/// The file of a moved upload may be removed once its Put has come with success, and not while this is out, nor before
/// it is given.
pub fn moved_upload()
    ensures met { MovedUploadIsMet }
    ensures refused { EarlyRemovalIsRefused }
{}
