//! Times as answers have them.

ghost use Rattle.std.specs.Prelude.{◌<◌};

use httpdate::HttpDate;
use s3_model::civil_time;
use std::alloc::{AllocError, Global};

const MICROS_PER_SECOND: u64 = 1_000_000;

/// The last second before the year 10,000.
const LAST_MOMENT: u64 = 253_402_300_799;

/// The whole seconds of a time in microseconds, before the year 10,000.
fn seconds_of(micros: u64) -> u64
    ensures { result < 253402300800 }
{
    (micros / MICROS_PER_SECOND).min(LAST_MOMENT)
}

/// Adds the day of a time.
fn push_day(out: &mut String, micros: u64) -> Result<(), AllocError> {
    let time = civil_time(seconds_of(micros));
    write!(out, "{:04}-{:02}-{:02}", time.year, time.month, time.day)
}

/// Adds what the clock says at a time.
fn push_clock(out: &mut String, micros: u64) -> Result<(), AllocError> {
    let second = civil_time(seconds_of(micros)).second;
    let (hours, minutes, rest) = (second / 3600, second / 60 % 60, second % 60);
    let thousandths = micros / 1000 % 1000;
    write!(out, "{hours:02}:{minutes:02}:{rest:02}.{thousandths:03}")
}

/// Adds a time as documents have it, as `2026-01-02T03:04:05.000Z`.
pub(crate) fn push_time(out: &mut String, micros: u64) -> Result<(), AllocError> {
    push_day(out, micros)?;
    out.push('T')?;
    push_clock(out, micros)?;
    out.push('Z')
}

/// A time as header lines have it, in whole seconds, as `Fri, 02 Jan 2026 03:04:05 GMT`.
pub(crate) fn header_time(alloc: Global, micros: u64) -> Result<String, AllocError> {
    match HttpDate::from_unix_secs(seconds_of(micros)) {
        Ok(date) => httpdate::fmt_http_date(alloc, date),
        Err(_) => Ok(String::new(alloc)),
    }
}
