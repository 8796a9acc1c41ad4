//! Runs that meet the definitions, and their neighbours that do not.

ghost use Rattle.promise_examples.specs.BothKinds.{BothKindsAreMet};
ghost use Rattle.promise_examples.specs.Everything.{EverythingIsMet};
ghost use Rattle.promise_examples.specs.FailedUpload.{FailedUploadIsMet};
ghost use Rattle.promise_examples.specs.GivenAgain.{BusyIsGivenAgain, DeniedIsNotGivenAgain, RefusedForGood};
ghost use Rattle.promise_examples.specs.Pages.{TwoPagesAreMet};
ghost use Rattle.job_terms.specs.Dispatches.{Dispatched};
ghost use Rattle.s3_model.specs.Talks.{Talk};
ghost use Rattle.s3_model.specs.declared.answers.Class.{Class};
ghost use Rattle.s3_model.specs.declared.requests.Ask.{Ask};
ghost use Rattle.std.specs.Prelude.{List, ℕ};

/// How talks are read: `shows ask limit talk class bytes` says that the talk has that class for the ask, and its
/// answer that body; `plans jobs` that the planning jobs are those that the command needs.
pub trait Reading {
    ghost shows: { Ask → ℕ → Talk → Class → List ℕ → Type 0 };

    ghost plans: { List Dispatched → Type 0 };
}

/// A planning that lists a bucket in two pages is asked, carried and served, with a reading that shows a page by its
/// items alone.
pub fn two_pages()
    ensures { TwoPagesAreMet }
{}

/// No job is given again after an attempt that would not be tried again: a Put that was refused with AccessDenied is
/// not given once more and stored. One that met a busy service may be.
pub fn given_again<R: Reading>()
    ensures for_good { RefusedForGood R.shows R.plans }
    ensures denied { DeniedIsNotGivenAgain R.shows R.plans }
    ensures busy { BusyIsGivenAgain }
{}

/// A run over two lanes with all that may go wrong meets every definition: a Create that was lost and then answered, a
/// part that was cut short, given again and also served late, a Complete that was lost and then answered again, and a
/// moved copy whose Delete was lost.
pub fn everything()
    ensures { EverythingIsMet }
{}

/// An upload in parts that failed meets every definition: one part was denied, the other one cut short after that
/// though the service stored it, and the upload aborted.
pub fn failed_upload()
    ensures { FailedUploadIsMet }
{}

/// A plan of both kinds of task is carried out, over wires and files: an upload that was stored; a download that was
/// written to its temporary file, renamed and given its time; one whose Get was refused and whose temporary file could
/// not be dropped, with a warning; and a file that was removed.
pub fn both_kinds()
    ensures { BothKindsAreMet }
{}
