//! The line of a run that ended early.

ghost use Rattle.std.specs.Prelude.{◌≡◌, ◌≢◌, IfOk, OnOk, map, string_bytes};
ghost use Rattle.run_report.specs.Texts.{HasLine, ending_line};

use crate::run::Fatal;
use result_lines::{
    answer_line, listing_line, plan_line, profile_line, unread_line, walk_line, word_line,
};
use s3_model::{OutOfMemory, Text};
use std::alloc::Global;

/// The line of a run that ended early; where memory ran out it is not made.
pub(crate) fn ending_line(
    alloc: Global,
    words: &[String],
    fatal: &Fatal,
) -> Result<Text, OutOfMemory>
    requires { HasLine fatal.now }
    ensures text { IfOk result (λ text. text ≡ ending_line (map string_bytes words.now) fatal.now) }
    ensures memory { OnOk result (fatal.now ≢ Fatal.Memory) }
{
    match fatal {
        Fatal::Words(fault) => word_line(alloc, words, *fault),
        Fatal::Profile(fault) => profile_line(alloc, fault),
        Fatal::EnvRead => Text::of(alloc, unread_line()),
        Fatal::Plan(fault) => plan_line(alloc, fault),
        Fatal::Walk(fault) => walk_line(alloc, *fault),
        Fatal::Listing(fault) => listing_line(alloc, fault),
        Fatal::Answer(cause) => answer_line(alloc, cause),
        Fatal::Memory => Err(OutOfMemory),
        Fatal::NotYet => Text::of(alloc, "s3: not built yet\n"),
    }
}
