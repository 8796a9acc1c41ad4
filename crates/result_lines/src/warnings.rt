//! The lines of warnings.

ghost use Rattle.std.specs.Prelude.{◌≡◌, ◌++◌, IfOk, codes};
ghost use Rattle.result_lines.specs.Tasks.{place_text};
ghost use Rattle.result_lines.specs.Warnings.{IsShown, skip_text, warning_line};

use crate::lines::{four_in_line, number, three_in_line};
use crate::tasks::place_text;
use s3_model::{KeySkip, OutOfMemory, Place, Text, Warning};
use std::alloc::Global;
use std::mem;

const START: &str = "warning: ";

fn skip_text(why: KeySkip) -> &'static str
    ensures { result.now ≡ skip_text why }
{
    match why {
        KeySkip::EmptyName => "empty name",
        KeySkip::Dots => "dot name",
        KeySkip::TempLike => "temporary name",
        KeySkip::LongKey(_) => "key too long",
        KeySkip::Memory => "",
    }
}

fn skipped_line(alloc: Global, place: &Place, why: &str) -> Result<Text, OutOfMemory>
    ensures { IfOk result (λ text. text ≡ codes "warning: " ++ (codes "Skipping " ++ place_text place.now ++ codes ": "
        ++ why.now) ++ codes "\n") }
{
    let name = place_text(alloc, place)?;
    let line = four_in_line(alloc, START, "Skipping ", name.as_str(), ": ", why);
    mem::drop(name);
    line
}

fn unnamed_line(alloc: Global, count: u64) -> Result<Text, OutOfMemory>
    ensures { IfOk result (λ text. text ≡ warning_line (Warning.Unnamed count)) }
{
    let count = number(alloc, count)?;
    let back = " names that are not UTF-8";
    let line = three_in_line(alloc, START, "Skipping ", count.as_str(), back);
    mem::drop(count);
    line
}

/// The line of a warning, with its line feed. It goes to standard error, and `--quiet` leaves it out.
pub fn warning_of(alloc: Global, warning: &Warning) -> Result<Text, OutOfMemory>
    requires { IsShown warning.now }
    ensures { IfOk result (λ text. text ≡ warning_line warning.now) }
{
    match warning {
        Warning::Skipped { place, why } => skipped_line(alloc, place, skip_text(*why)),
        Warning::Unnamed(count) => unnamed_line(alloc, *count),
        Warning::NotAFile(path) => {
            three_in_line(alloc, START, "Skipping ", path.as_str(), ": not a file")
        }
        Warning::TimeNotSet(path) => {
            let back = " could not be set";
            three_in_line(alloc, START, "The time of ", path.as_str(), back)
        }
        Warning::TempLeft(path) => {
            let back = " could not be removed";
            three_in_line(alloc, START, "The temporary file ", path.as_str(), back)
        }
    }
}
