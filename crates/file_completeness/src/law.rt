//! The law, a function that does nothing.

ghost use Rattle.file_completeness.specs.FileCompleteness.{WillingFilesAreDone};
ghost use Rattle.world_laws.specs.Rounds.{AreNone, NeverFailed, Told, ToldStatus};

use world_laws::Command;

/// Over a service that does what it may, where each answer is certain, nobody else writes and the run is not cancelled:
/// each removal of a file is done, and each download whose object is there as planned, but a task whose file call failed
/// or for which memory ran out. A download that is not to replace is skipped where its file was there.
pub fn complete<C: Command>()
    ensures done { WillingFilesAreDone C.shows C.has_status C.plans C.call_failed }
{}
