//! Moments, as ISO 8601 writes them.

ghost use Rattle.std.specs.Prelude.{◌≤◌, ◌<◌, ◌+◌, ◌-◌, ◌^◌, ℕ, IfSome, IfNone, length, slice_range};
ghost use Rattle.reply_values.specs.Numbers.{Writes};
ghost use Rattle.reply_values.specs.Times.{HasDate, HasClock, WritesMicros, EndsTime, SpellsTime};

use jiff_core::civil::Date;

const SECONDS_PER_DAY: u64 = 86_400;

const MICROS_PER_SECOND: u64 = 1_000_000;

/// How many digits a fraction of a second may have.
const LONGEST_FRACTION: usize = 9;

/// The number that a few decimal digits write.
fn digits(text: &[u8]) -> Option<u32>
    requires some { 1 ≤ length text.now }
    requires few { length text.now ≤ 9 }
    ensures value { IfSome result (Writes 10 text.now) }
    ensures small { IfSome result (λ number. number < 10 ^ length text.now) }
    ensures refused { IfNone result ((number : ℕ) → ¬ (Writes 10 text.now number)) }
{
    let mut number: u32 = 0;
    for byte in text {
        if !byte.is_ascii_digit() {
            return None;
        }
        number = number * 10 + u32::from(*byte - b'0');
    }
    Some(number)
}

/// The number that the digits from one place to another write.
fn number_at(text: &[u8], start: usize, end: usize) -> Option<u32>
    requires some { start < end }
    requires few { end ≤ start + 9 }
    requires within { end ≤ length text.now }
    ensures value { IfSome result (Writes 10 (slice_range text.now start end)) }
    ensures small { IfSome result (λ number. number < 10 ^ (end - start)) }
    ensures refused { IfNone result ((number : ℕ) → ¬ (Writes 10 (slice_range text.now start end) number)) }
{
    digits(&text[start..end])
}

/// The days since 1970-01-01 of the date at the front.
fn days(text: &[u8]) -> Option<u64>
    requires { 19 ≤ length text.now }
    ensures value { IfSome result (HasDate text.now) }
    ensures small { IfSome result (λ days. days ≤ 2932896) }
    ensures refused { IfNone result ((days : ℕ) → ¬ (HasDate text.now days)) }
{
    let year = number_at(text, 0, 4)?;
    let month = number_at(text, 5, 7)?;
    let day = number_at(text, 8, 10)?;
    let date = Date::new(year as i16, month as i8, day as i8).ok()?;
    u64::try_from(date.to_unix_epoch_day()).ok()
}

/// The seconds since midnight of the time behind the date.
fn seconds(text: &[u8]) -> Option<u64>
    requires { 19 ≤ length text.now }
    ensures value { IfSome result (HasClock text.now) }
    ensures small { IfSome result (λ seconds. seconds < 86400) }
    ensures refused { IfNone result ((seconds : ℕ) → ¬ (HasClock text.now seconds)) }
{
    let hour = number_at(text, 11, 13)?;
    let minute = number_at(text, 14, 16)?;
    let second = number_at(text, 17, 19)?;
    if hour > 23 || minute > 59 || second > 59 {
        return None;
    }
    Some(u64::from(hour * 3600 + minute * 60 + second))
}

/// The microseconds, cut down, of what follows the seconds.
fn micros(end: &[u8]) -> Option<u64>
    ensures value { IfSome result (EndsTime end.now) }
    ensures small { IfSome result (λ micros. micros < 10 ^ 6) }
    ensures refused { IfNone result ((micros : ℕ) → ¬ (EndsTime end.now micros)) }
{
    let fraction = end.strip_suffix(b"Z".as_slice())?;
    if fraction.is_empty() {
        return Some(0);
    }
    micros_of(fraction.strip_prefix(b".".as_slice())?)
}

/// The microseconds, cut down, of the digits behind the point.
fn micros_of(fraction: &[u8]) -> Option<u64>
    ensures value { IfSome result (WritesMicros fraction.now) }
    ensures small { IfSome result (λ micros. micros < 10 ^ 6) }
    ensures refused { IfNone result ((micros : ℕ) → ¬ (WritesMicros fraction.now micros)) }
{
    if fraction.is_empty() || fraction.len() > LONGEST_FRACTION {
        return None;
    }
    let unit = 10u64.pow((LONGEST_FRACTION - fraction.len()) as u32);
    Some(u64::from(digits(fraction)?) * unit / 1000)
}

/// The moment that a time spells, in whole microseconds since 1970-01-01T00:00:00Z, cut down.
///
/// A time is `YYYY-MM-DDTHH:MM:SS`, then perhaps `.` and one to nine digits, then `Z` (ISO 8601). The day is one of the
/// proleptic Gregorian calendar from 1970-01-01 on, and the time is at most 23:59:59. None for every other text.
pub fn time(text: &str) -> Option<u64>
    ensures value { IfSome result (SpellsTime text.now) }
    ensures refused { IfNone result ((moment : ℕ) → ¬ (SpellsTime text.now moment)) }
{
    let text = text.as_bytes();
    if text.len() < 20 || [text[4], text[7], text[10], text[13], text[16]] != *b"--T::" {
        return None;
    }
    let micros = micros(&text[19..])?;
    let seconds = days(text)? * SECONDS_PER_DAY + seconds(text)?;
    Some(seconds * MICROS_PER_SECOND + micros)
}
