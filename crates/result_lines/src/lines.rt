//! Lines put together: a beginning that tells their kind, some texts, and the line feed.

ghost use Rattle.std.specs.Prelude.{◌≡◌, ◌++◌, IfOk, codes, decimal};

use s3_model::{OutOfMemory, Text};
use std::alloc::Global;

/// A number in decimal digits.
pub(crate) fn number(alloc: Global, n: u64) -> Result<Text, OutOfMemory>
    ensures { IfOk result (λ text. text ≡ decimal n) }
{
    Ok(Text::from(format!(in alloc; "{n}")?))
}

pub(crate) fn two_in_line<'a>(
    alloc: Global,
    start: &'a str,
    first: &'a str,
    second: &'a str,
) -> Result<Text, OutOfMemory>
    ensures { IfOk result (λ text. text ≡ start.now ++ (first.now ++ second.now) ++ codes "\n") }
{
    Text::joined(alloc, &[start, first, second, "\n"])
}

pub(crate) fn three_in_line<'a>(
    alloc: Global,
    start: &'a str,
    first: &'a str,
    second: &'a str,
    third: &'a str,
) -> Result<Text, OutOfMemory>
    ensures { IfOk result (λ text. text ≡ start.now ++ (first.now ++ second.now ++ third.now) ++ codes "\n") }
{
    Text::joined(alloc, &[start, first, second, third, "\n"])
}

pub(crate) fn four_in_line<'a>(
    alloc: Global,
    start: &'a str,
    first: &'a str,
    second: &'a str,
    third: &'a str,
    fourth: &'a str,
) -> Result<Text, OutOfMemory>
    ensures { IfOk result (λ text.
        text ≡ start.now ++ (first.now ++ second.now ++ third.now ++ fourth.now) ++ codes "\n") }
{
    Text::joined(alloc, &[start, first, second, third, fourth, "\n"])
}
