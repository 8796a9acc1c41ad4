//! The laws of runs, each a function that does nothing.

ghost use Rattle.s3_model.specs.declared.answers.Class.{Class};
ghost use Rattle.s3_model.specs.declared.outcomes.Cause.{Cause};
ghost use Rattle.s3_model.specs.declared.requests.Ask.{Ask};
ghost use Rattle.s3_model.specs.Talks.{Talk};
ghost use Rattle.job_terms.specs.Dispatches.{Dispatched};
ghost use Rattle.std.specs.Prelude.{List, ℕ};
ghost use Rattle.world_laws.specs.Completeness.{OrderlyIsDone, WillingIsDone};
ghost use Rattle.world_laws.specs.Destinations.{IsOldAfterRefusals};
ghost use Rattle.world_laws.specs.Downloads.{GetTells, RangesTell};
ghost use Rattle.world_laws.specs.Frame.{FrameHolds};
ghost use Rattle.world_laws.specs.Moves.{CopiedPartsComeFirst, CopyComesFirst, SourceIsGone};
ghost use Rattle.world_laws.specs.Multipart.{AbortsAreFinal, CopiedPartsAreStored, CopiedPartsAreWhole, PartsAreStored};
ghost use Rattle.world_laws.specs.Multipart.{PartsAreWhole};
ghost use Rattle.world_laws.specs.Promises.{CarriedIsGiven, PromiseHolds};
ghost use Rattle.world_laws.specs.Rounds.{AreNone, NeverFailed, Told, ToldStatus};
ghost use Rattle.world_laws.specs.SmallTransfers.{CopyIsWhole, CopyStores, DeleteIsWhole, DeleteRemoves, UploadIsWhole};
ghost use Rattle.world_laws.specs.SmallTransfers.{UploadStores};
ghost use Rattle.world_laws.specs.Sources.{FoundHasSize, FoundIsSource};
ghost use Rattle.world_laws.specs.Tasks.{MovedSourceIsGone, MovedTaskIsNew, OtherObjectsStay, TaskEnds, TaskIsNew};
ghost use Rattle.world_laws.specs.Tasks.{TaskIsOld, TaskIsWhole};
ghost use Rattle.world_laws.specs.Uploads.{IdsAreCreatedOnce, OtherUploadsStay};
ghost use Rattle.world_laws.specs.Witnesses.{AbortIsMet, CompleteIsMet, CopiedMoveIsMet, CopiedPartsAreMet, CopyIsMet};
ghost use Rattle.world_laws.specs.Witnesses.{DeleteIsMet, DoneIsMet, FailedIsMet, FrameIsMet, GetIsMet, HeadIsMet};
ghost use Rattle.world_laws.specs.Witnesses.{MoveIsMet, OtherUploadIsMet, PageIsMet, PartsAreMet, RangesAreMet};
ghost use Rattle.world_laws.specs.Witnesses.{RefusalIsMet, RefusedTaskIsMet, SkippedIsMet, TaskIsMet, UploadIsComplete};
ghost use Rattle.world_laws.specs.Witnesses.{UploadIsMet};

/// How talks are read: `shows ask limit talk class bytes` says that the talk has that class for the ask, and its
/// answer that body.
pub trait Reading {
    ghost shows: { Ask → ℕ → Talk → Class → List ℕ → Type 0 };
}

/// What a command's jobs are judged by beside the classes of their talks: `has_status ask limit talk status` says that
/// the talk's answer has that HTTP status, `plans jobs` that these planning jobs, in order, are those that the command
/// needs, and `call_failed n why` that the calls on files show that one of task n failed so.
pub trait Command: Reading {
    ghost has_status: { Ask → ℕ → Talk → ℕ → Type 0 };

    ghost plans: { List Dispatched → Type 0 };

    ghost call_failed: { ℕ → Cause → Type 0 };
}

/// An object that no request of a run may change, and that nobody else writes, is as it was after each beginning of
/// the trace, and so at every later moment.
pub fn others_stay<R: Reading>()
    ensures stay { FrameHolds R.shows }
    ensures met { FrameIsMet }
{}

/// A destination all of whose requests were refused is as before, at every moment.
pub fn refusal<R: Reading>()
    ensures old { IsOldAfterRefusals R.shows }
    ensures met { RefusalIsMet }
{}

/// An object that every request which may change it puts whole, with one body: after a success it is the body from
/// the end on, also after late serves of earlier attempts; else it is as before or the body.
pub fn small_upload<R: Reading>()
    ensures stores { UploadStores R.shows }
    ensures whole { UploadIsWhole R.shows }
    ensures met { UploadIsMet }
{}

/// An object that every request which may change it copies there from one source, under one ETag: after a success it
/// has what the source had under that ETag at some moment, whoever rewrites the source; else it is as before or that.
pub fn small_copy<R: Reading>()
    ensures stores { CopyStores R.shows }
    ensures whole { CopyIsWhole R.shows }
    ensures met { CopyIsMet }
{}

/// An object that every request which may change it deletes: after a success it is absent; else it is as before or
/// absent.
pub fn removal<R: Reading>()
    ensures removes { DeleteRemoves R.shows }
    ensures whole { DeleteIsWhole R.shows }
    ensures met { DeleteIsMet }
{}

/// An object that every request which may change it makes by completing an upload in parts that the run created,
/// with each part carrying its piece: after a Complete that came with success it is the pieces in order; else it is as
/// before or that, also where parts are served twice or after an Abort, or a Complete is served late.
pub fn multipart_upload<R: Reading>()
    ensures stores { PartsAreStored R.shows }
    ensures whole { PartsAreWhole R.shows }
    ensures met { PartsAreMet }
{}

/// The same for parts that are copied from one source under one ETag: the object becomes the ranges of what the source
/// had under that ETag at some moment, whoever rewrites the source.
pub fn multipart_copy<R: Reading>()
    ensures stores { CopiedPartsAreStored R.shows }
    ensures whole { CopiedPartsAreWhole R.shows }
    ensures met { CopiedPartsAreMet }
{}

/// An upload whose Abort was answered with success is open at no later moment.
pub fn abort()
    ensures last { AbortsAreFinal }
    ensures met { AbortIsMet }
{}

/// A copy that is moved: from the time that a request of a job begins which is given only after the copy came with
/// success, as the Delete of its source is, the destination is new; and after that Delete came with success the source
/// is absent, or somebody else wrote it.
pub fn moved_copy<R: Reading>()
    ensures small { CopyComesFirst R.shows }
    ensures in_parts { CopiedPartsComeFirst R.shows }
    ensures source { SourceIsGone R.shows }
    ensures met { MoveIsMet }
    ensures met_in_parts { CopiedMoveIsMet }
{}

/// An upload that was begun, and that no request of a run names, stays as it is; and an id is created once.
pub fn other_uploads<R: Reading>()
    ensures stay { OtherUploadsStay R.shows }
    ensures once { IdsAreCreatedOnce }
    ensures met { OtherUploadIsMet }
{}

/// What a Get that came with success tells: the body of a Get of the whole is what the object had under the asked ETag
/// at some moment, and the bodies of all ranges of it are that content in order, whoever rewrites the object.
pub fn download<R: Reading>()
    ensures whole { GetTells R.shows }
    ensures ranges { RangesTell R.shows }
    ensures met { GetIsMet }
    ensures met_in_ranges { RangesAreMet }
{}

/// What a Head, or an entry of a page of a listing, told of an object is so at every moment of the run, whoever
/// rewrites the object: whatever it had under that ETag has that size. So a copy that is planned from it has its
/// source.
pub fn found_source<R: Reading>()
    ensures size { FoundHasSize R.shows }
    ensures source { FoundIsSource R.shows }
    ensures met_head { HeadIsMet }
    ensures met_page { PageIsMet }
{}

/// What the clauses on given and on carried jobs make of the objects, over every honest trace that fits. A task whose
/// destination is an object ends as its outcome says, where that outcome is what its deciding request and the source of
/// its move show. Its destination is new once the request that decides it came with success, as before where each
/// attempt of that request was refused or none was made, and else one or the other. Of a copy that is moved the Delete
/// of the source begins only once the destination is new, and after that Delete came with success the source is gone.
/// Every object that is no destination and no moved source, and that nobody else wrote, is as before.
pub fn task<R: Reading>()
    ensures ends { TaskEnds R.shows }
    ensures new { TaskIsNew R.shows }
    ensures old { TaskIsOld R.shows }
    ensures whole { TaskIsWhole R.shows }
    ensures moved { MovedTaskIsNew R.shows }
    ensures gone { MovedSourceIsGone R.shows }
    ensures others { OtherObjectsStay R.shows }
    ensures met { TaskIsMet }
    ensures met_refused { RefusedTaskIsMet }
{}

/// What is carried was given and came as the journal says, and nothing else was given or came.
pub fn carried_jobs<R: Reading>()
    ensures given { CarriedIsGiven R.shows }
{}

/// What a run over objects promises follows once its jobs keep to their schedule and are carried, and each task has the
/// outcome that its talks show: over every honest service that fits, each task ended as its outcome says, nothing is
/// changed where there is no outcome, all else stays, a moved source goes only once its destination is new, and no
/// upload is open after its Abort was answered with success.
pub fn truthful<C: Command>()
    ensures holds { PromiseHolds C.shows C.has_status C.plans C.call_failed }
    ensures met_done { DoneIsMet }
    ensures met_failed { FailedIsMet }
    ensures met_skipped { SkippedIsMet }
{}

/// Over a service that does what it may such a run is done: where each answer is certain, nobody else writes, the
/// buckets of the destinations, the sources of copies and the uploaded files are there, and the run is not cancelled,
/// each task is done or skipped, in parts as well as whole, but one whose file call failed or for which memory ran out.
pub fn complete<C: Command>()
    ensures done { WillingIsDone C.shows C.has_status C.plans C.call_failed }
    ensures however_read { OrderlyIsDone C.shows C.has_status C.plans C.call_failed }
    ensures met { CompleteIsMet }
    ensures met_in_parts { UploadIsComplete }
{}
