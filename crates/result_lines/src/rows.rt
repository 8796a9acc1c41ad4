//! The rows of `ls`.

ghost use Rattle.std.specs.Prelude.{◌≡◌, ◌<◌, ◌++◌, ◌/◌, ◌%◌, ◌^◌, IfOk, codes, decimal};
ghost use Rattle.result_lines.specs.Rows.{
  IsBucketRow,
  IsRow,
  IsTimed,
  clock_text,
  date_text,
  in_digits,
  prefix_row,
  right_in,
};

use s3_model::{Entry, OutOfMemory, Text, civil_time};
use std::alloc::Global;
use std::mem;

const MICROS_PER_SECOND: u64 = 1_000_000;

#[tactic(auto, using(crate::proofs::PaddingLemmas::zeros))]
fn two_digits(alloc: Global, n: u32) -> Result<Text, OutOfMemory>
    ensures { IfOk result (λ text. text ≡ in_digits 2 n) }
{
    Ok(Text::from(format!(in alloc; "{n:02}")?))
}

#[tactic(auto, using(crate::proofs::PaddingLemmas::zeros))]
fn four_digits(alloc: Global, n: u32) -> Result<Text, OutOfMemory>
    ensures { IfOk result (λ text. text ≡ in_digits 4 n) }
{
    Ok(Text::from(format!(in alloc; "{n:04}")?))
}

/// A text, and two numbers of two digits behind it, each with the mark before it.
fn two_behind<'a>(
    alloc: Global,
    front: &'a str,
    mark: &'a str,
    first: u32,
    second: u32,
) -> Result<Text, OutOfMemory>
    ensures { IfOk result (λ text.
        text ≡ front.now ++ mark.now ++ in_digits 2 first ++ mark.now ++ in_digits 2 second) }
{
    let first = two_digits(alloc, first)?;
    let text = one_behind(alloc, front, mark, first.as_str(), second);
    mem::drop(first);
    text
}

/// The same, where the first number is a text already.
fn one_behind<'a>(
    alloc: Global,
    front: &'a str,
    mark: &'a str,
    first: &'a str,
    second: u32,
) -> Result<Text, OutOfMemory>
    ensures { IfOk result (λ text.
        text ≡ front.now ++ mark.now ++ first.now ++ mark.now ++ in_digits 2 second) }
{
    let second = two_digits(alloc, second)?;
    let text = Text::joined(alloc, &[front, mark, first, mark, second.as_str()]);
    mem::drop(second);
    text
}

fn date_text(alloc: Global, year: u16, month: u8, day: u8) -> Result<Text, OutOfMemory>
    ensures { IfOk result (λ text. text ≡ date_text year month day) }
{
    let year = four_digits(alloc, u32::from(year))?;
    let (month, day) = (u32::from(month), u32::from(day));
    let text = two_behind(alloc, year.as_str(), "-", month, day);
    mem::drop(year);
    text
}

/// The time of the day so many seconds after midnight.
fn clock_text(alloc: Global, seconds: u32) -> Result<Text, OutOfMemory>
    ensures { IfOk result (λ text. text ≡ clock_text seconds) }
{
    let hour = two_digits(alloc, seconds / 3600)?;
    let (minute, second) = (seconds / 60 % 60, seconds % 60);
    let text = two_behind(alloc, hour.as_str(), ":", minute, second);
    mem::drop(hour);
    text
}

fn timed(alloc: Global, date: &str, clock: &str, rest: &str) -> Result<Text, OutOfMemory>
    ensures { IfOk result (λ text. text ≡ date.now ++ codes " " ++ clock.now ++ rest.now) }
{
    Text::joined(alloc, &[date, " ", clock, rest])
}

fn moment_row(
    alloc: Global,
    year: u16,
    month: u8,
    day: u8,
    seconds: u32,
    rest: &str,
) -> Result<Text, OutOfMemory>
    ensures { IfOk result (λ text. text ≡ date_text year month day ++ codes " " ++ clock_text seconds ++ rest.now) }
{
    let date = date_text(alloc, year, month, day)?;
    let clock = clock_text(alloc, seconds)?;
    timed(alloc, date.as_str(), clock.as_str(), rest)
}

/// The time of a moment in UTC, and what follows it in a row.
fn timed_row(alloc: Global, micros: u64, rest: &str) -> Result<Text, OutOfMemory>
    requires { micros < 253402300800000000 }
    ensures { IfOk result (IsTimed micros rest.now) }
{
    let time = civil_time(micros / MICROS_PER_SECOND);
    moment_row(alloc, time.year, time.month, time.day, time.second, rest)
}

/// The size right in 10 places.
#[tactic(auto, using(crate::proofs::PaddingLemmas::blanks))]
fn size_text(alloc: Global, size: u64) -> Result<Text, OutOfMemory>
    ensures { IfOk result (λ text. text ≡ right_in 10 32 (decimal size)) }
{
    Ok(Text::from(format!(in alloc; "{size:>10}")?))
}

/// What stands behind the time in the row of an object.
fn size_and_name(alloc: Global, size: u64, name: &str) -> Result<Text, OutOfMemory>
    ensures { IfOk result (λ text.
        text ≡ codes " " ++ right_in 10 32 (decimal size) ++ codes " " ++ name.now ++ codes "\n") }
{
    let size = size_text(alloc, size)?;
    let text = Text::joined(alloc, &[" ", size.as_str(), " ", name, "\n"]);
    mem::drop(size);
    text
}

/// The row of an object under that name, as the AWS CLI prints it: its time in UTC, its size right in 10 places, its
/// name.
///
/// The time is that of the entry, in microseconds since 1970, and lies before the year 10000.
pub fn ls_row(alloc: Global, entry: &Entry, name: &str) -> Result<Text, OutOfMemory>
    requires { entry.now.micros < 253402300800000000 }
    ensures { IfOk result (IsRow entry.now name.now) }
{
    let rest = size_and_name(alloc, entry.size, name)?;
    let row = timed_row(alloc, entry.micros, rest.as_str());
    mem::drop(rest);
    row
}

/// The row of a prefix: `PRE` right in 30 places, and its name.
pub fn ls_prefix(alloc: Global, name: &str) -> Result<Text, OutOfMemory>
    ensures { IfOk result (λ text. text ≡ prefix_row name.now) }
{
    let front = "                           PRE ";
    Text::joined(alloc, &[front, name, "\n"])
}

/// The row of a bucket: the time in UTC when it was made, which lies before the year 10000, and its name.
pub fn bucket_row(alloc: Global, entry: &Entry) -> Result<Text, OutOfMemory>
    requires { entry.now.micros < 253402300800000000 }
    ensures { IfOk result (IsBucketRow entry.now) }
{
    let rest = Text::joined(alloc, &[" ", entry.key.as_str(), "\n"])?;
    timed_row(alloc, entry.micros, rest.as_str())
}
