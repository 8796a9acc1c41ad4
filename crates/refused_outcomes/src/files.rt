//! What local files hold.

ghost use Rattle.refused_outcomes.specs.MovedFiles.{EachMovedFileIsRefused, MovedFileIsTold};
ghost use Rattle.refused_outcomes.specs.ToldFiles.{EachUntoldFileIsRefused, EachUnwarnedFileIsMet};
ghost use Rattle.refused_outcomes.specs.ToldFiles.{EachUnwarnedFileIsRefused, ExceptionsLetThrough, FilesAreTold};

/// A download whose Delete was answered as no service answers one, so that no honest trace fits the run: its files are
/// those that its calls made. Where the destination holds other bytes or nothing, where the calls that made it are not
/// told, or where it is done and was not renamed, that is refused all the same.
pub fn traceless_files()
    ensures met { FilesAreTold }
    ensures refused { EachUntoldFileIsRefused }
{}

/// Where memory ran out for a warning, no warning names what a call left. A temporary file that a failed drop left, and
/// a time that a failed call did not set, are let through, though no warning names them; and a file that was removed is
/// gone. Where no such call failed, a file with the name of a temporary file, another time, and a removed file that
/// stands are refused, though the exceptions alone would let them through (`excused`).
pub fn unwarned_files()
    ensures met { EachUnwarnedFileIsMet }
    ensures excused { ExceptionsLetThrough }
    ensures refused { EachUnwarnedFileIsRefused }
{}

/// A moved upload that is done has its file removed. Where its file was not removed, or stands all the same, and where
/// it was removed and the task was copied alone or failed, for whatever cause, that is refused.
pub fn moved_files()
    ensures met { MovedFileIsTold }
    ensures refused { EachMovedFileIsRefused }
{}
