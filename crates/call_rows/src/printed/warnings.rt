//! Lines of warnings.

ghost use Rattle.result_lines.specs.Warnings.{IsShown};

use crate::lines::{number, text_of, word_and_rest};
use crate::printed::values::place_of;
use result_lines::warning_of;
use s3_model::{KeySkip, OutOfMemory, Text, Warning};
use std::alloc::Global;
use std::mem;

/// A place that is left out.
fn skipped(alloc: Global, why: &str, place: &str) -> Warning
    ensures { IsShown result }
{
    let place = place_of(alloc, place);
    let why = match why {
        "Dots" => KeySkip::Dots,
        "EmptyName" => KeySkip::EmptyName,
        "TempLike" => KeySkip::TempLike,
        _ => KeySkip::LongKey(1025),
    };
    Warning::Skipped { place, why }
}

fn warning(alloc: Global, name: &str, given: &str) -> Warning
    ensures { IsShown result }
{
    match name {
        "Unnamed" => Warning::Unnamed(number(given)),
        "NotAFile" => Warning::NotAFile(text_of(alloc, given)),
        "TimeNotSet" => Warning::TimeNotSet(text_of(alloc, given)),
        "TempLeft" => Warning::TempLeft(text_of(alloc, given)),
        _ => skipped(alloc, name, given),
    }
}

/// The line of a warning.
pub(crate) fn line(alloc: Global, given: &str) -> Result<Text, OutOfMemory> {
    let (name, given) = word_and_rest(given);
    let warning = warning(alloc, name, given);
    let line = warning_of(alloc, &warning);
    mem::drop(warning);
    line
}
