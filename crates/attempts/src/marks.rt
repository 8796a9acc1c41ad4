//! The marks of attempts, as a journal has them.

ghost use Rattle.std.specs.Prelude.{◌≡◌};
ghost use Rattle.attempts.specs.Attempts.{tries_of};
ghost use Rattle.job_terms.specs.Attempts.{mark_of};

use crate::send::Attempted;
use s3_model::{Class, Mark, Tries};

/// The mark of an attempt whose answer has that class.
pub fn mark_of(class: &Class) -> Mark
    ensures { result ≡ mark_of class.now }
{
    match class {
        Class::Success(_) => Mark::Success,
        Class::Refusal { .. } => Mark::Refusal,
        Class::Uncertain(_) => Mark::Uncertain,
    }
}

/// The marks of a job that was attempted once: that of its talk, or none where memory ran out before a talk.
pub fn tries_of(attempted: &Attempted) -> Tries
    ensures marks { result ≡ tries_of attempted.now }
{
    let mut tries = Tries::none();
    if let Attempted::Made(judged) = attempted {
        tries.add(mark_of(&judged.class));
    }
    tries
}
