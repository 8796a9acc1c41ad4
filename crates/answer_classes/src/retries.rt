//! Requests that are tried again.

ghost use Rattle.std.specs.Prelude.{◌≡◌};
ghost use Rattle.s3_model.specs.Classes.{is_tried_again};

use s3_model::{Class, Why, is_passing};

/// Whether a request with an answer of that class is tried again: one that is left open, unless memory ran out, and
/// one that was refused with the code `SlowDown`, `ServiceUnavailable` or `RequestTimeout`.
pub fn again(class: &Class) -> bool
    ensures { result ≡ is_tried_again class.now }
{
    match class {
        Class::Success(_) => false,
        Class::Refusal { code, .. } => is_passing(code.as_str()),
        Class::Uncertain(why) => !matches!(why, Why::Memory),
    }
}
