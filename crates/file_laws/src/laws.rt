//! The laws on local files, each a function that does nothing.

ghost use Rattle.file_laws.specs.FileEnds.{FileTaskEnds, MovedFilesAreLeft, PromisedFilesStay};
ghost use Rattle.file_laws.specs.FileLaws.{FileIsDownloaded, FileIsKeptSafe, FileIsMoved, FileIsRemoved, FilesStay};
ghost use Rattle.file_laws.specs.FileWitnesses.{DownloadIsMet, FailedRemovalIsMet, LeftFileIsMet, MovedFileIsMet};
ghost use Rattle.file_laws.specs.FileWitnesses.{RefusedGetIsMet, RemovalIsMet};
ghost use Rattle.file_laws.specs.PlanEnds.{PlanEnds};
ghost use Rattle.file_laws.specs.PlanWitnesses.{PlanIsMet, UncountedIsRefused};
ghost use Rattle.world_laws.specs.Rounds.{AreNone, NeverFailed, Told, ToldStatus};

use world_laws::{Command, Reading};

/// Every file that is no destination and no source of a move is as at the start after each call, whatever calls
/// failed. But where nothing was, a temporary file may stand until it is renamed or dropped, and it stays where its
/// drop failed; a warning then names it, or memory ran out for that warning.
pub fn other_files<R: Reading>()
    ensures stay { FilesStay R.shows }
    ensures promised { PromisedFilesStay R.shows }
    ensures met { LeftFileIsMet }
{}

/// A file that is to be removed is as before until its removal went well, and then absent; but a temporary file that
/// could not be dropped may have its name in the end.
pub fn file_removal<R: Reading>()
    ensures removed { FileIsRemoved R.shows }
    ensures met { RemovalIsMet }
    ensures met_failed { FailedRemovalIsMet }
{}

/// The destination of a download is as before until its temporary file is renamed, and no call writes to it. Where it
/// was renamed, the destination has the planned time in the end, unless setting it failed. The temporary file is gone
/// in the end, unless dropping it failed. A warning then names the file, or memory ran out for that warning. Over every
/// honest service that fits, the destination has from its rename on what the object had under the planned ETag at some
/// moment, whoever rewrites the object and in whatever order its ranges came.
pub fn download<R: Reading>()
    ensures safe { FileIsKeptSafe R.shows }
    ensures downloaded { FileIsDownloaded R.shows }
    ensures met { DownloadIsMet }
    ensures met_dropped { RefusedGetIsMet }
{}

/// The file of a move is as before until its removal went well, which comes after the success that decides its task.
/// Then it is gone. A run whose calls remove such files for the tasks that are done, and for no others, ends with these
/// files gone and all other moved files as before.
pub fn moved_file<R: Reading>()
    ensures moved { FileIsMoved R.shows }
    ensures left { MovedFilesAreLeft R.shows }
    ensures met { MovedFileIsMet }
{}

/// A download of an object to a file, or the removal of a file, ends as its outcome says, over every honest service
/// that fits, where that outcome is what its jobs and its calls on files show.
pub fn file_task<C: Command>()
    ensures ends { FileTaskEnds C.shows C.has_status C.call_failed }
    ensures met_done { DownloadIsMet }
    ensures met_failed { RefusedGetIsMet }
    ensures met_removal { FailedRemovalIsMet }
{}

/// What a run over objects and files promises follows where each task is one that requests or calls on files decide:
/// over every honest service that fits, each task ended as its outcome says, and nothing else is changed, neither
/// objects nor files. Such a run counts a call on files that failed.
pub fn plan<C: Command>()
    ensures ends { PlanEnds C.shows C.has_status C.plans C.call_failed }
    ensures met { PlanIsMet }
    ensures refused { UncountedIsRefused }
{}
