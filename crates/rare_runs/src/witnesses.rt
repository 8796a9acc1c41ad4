//! Runs in which little is common, each with a trace, that meet the definitions.

ghost use Rattle.rare_runs.specs.CopyInParts.{CopyInPartsIsMet};
ghost use Rattle.rare_runs.specs.MovedDownload.{LateRenameIsRefused, MovedDownloadIsMet};
ghost use Rattle.rare_runs.specs.ShortRuns.{CancelledIsMet, ExternalWriteIsMet, MemoryIsMet, RefusedHeadIsMet};

/// A planning whose one request, a Head, was refused with AccessDenied, so that there is no plan.
pub fn refused_head()
    ensures { RefusedHeadIsMet }
{}

/// An upload that failed since memory ran out for it: its Put was given, and came without an attempt.
pub fn memory_ran_out()
    ensures { MemoryIsMet }
{}

/// An upload that failed since the run was cancelled, for any reason, while its Put was out without an attempt.
pub fn cancelled_run()
    ensures { CancelledIsMet }
{}

/// An upload that was stored, while somebody else wrote an object beside it, and removed it.
pub fn external_write()
    ensures { ExternalWriteIsMet }
{}

/// A copy of two bytes in two parts: its upload is created, each part copied under the ETag of the source, and the
/// upload completed with the ETags of both.
pub fn copy_in_parts()
    ensures { CopyInPartsIsMet }
{}

/// An object that is moved to a file: its Get came and was written, the file renamed and given its time, and then the
/// object deleted. Its calls do not keep to their clauses where the file was renamed once the Delete had been given.
pub fn moved_download()
    ensures met { MovedDownloadIsMet }
    ensures refused { LateRenameIsRefused }
{}
