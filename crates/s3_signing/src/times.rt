//! Moments as dates and times in UTC.
ghost use Rattle.std.specs.Prelude.{◌≡◌, ◌<◌, ◌++◌, OnOk, string_bytes};
ghost use Rattle.s3_signing.specs.Times as spec;

use s3_model::civil_time;
use std::alloc::AllocError;

fn push_digit(out: &mut String, n: u32) -> Result<(), AllocError>
    ensures { OnOk result (string_bytes out.new ≡ string_bytes out.old ++ spec.digit n) }
{
    out.push(char::from(b'0' + (n % 10) as u8))
}

fn push_two_digits(out: &mut String, n: u32) -> Result<(), AllocError>
    ensures { OnOk result (string_bytes out.new ≡ string_bytes out.old ++ spec.two_digits n) }
{
    push_digit(out, n / 10)?;
    push_digit(out, n)
}

fn push_four_digits(out: &mut String, n: u32) -> Result<(), AllocError>
    ensures { OnOk result (string_bytes out.new ≡ string_bytes out.old ++ spec.four_digits n) }
{
    push_two_digits(out, n / 100)?;
    push_two_digits(out, n)
}

/// Adds the date of a moment as YYYYMMDD.
#[tactic(auto, unfolding(crate::specs::Times::date_text))]
pub fn push_basic_date(out: &mut String, moment: u64) -> Result<(), AllocError>
    requires { moment < 253402300800 }
    ensures { OnOk result (string_bytes out.new ≡ string_bytes out.old ++ spec.basic_date moment) }
{
    let time = civil_time(moment);
    push_four_digits(out, u32::from(time.year))?;
    push_two_digits(out, u32::from(time.month))?;
    push_two_digits(out, u32::from(time.day))
}

/// Adds the seconds since midnight as HHMMSS.
#[tactic(auto, unfolding(crate::specs::Times::time_text))]
fn push_time_of_day(out: &mut String, second: u32) -> Result<(), AllocError>
    ensures { OnOk result (string_bytes out.new ≡ string_bytes out.old ++ spec.time_text second) }
{
    push_two_digits(out, second / 3600)?;
    push_two_digits(out, second / 60 % 60)?;
    push_two_digits(out, second % 60)
}

/// Adds a moment as YYYYMMDDTHHMMSSZ.
pub fn push_basic_time(out: &mut String, moment: u64) -> Result<(), AllocError>
    requires { moment < 253402300800 }
    ensures { OnOk result (string_bytes out.new ≡ string_bytes out.old ++ spec.basic_time moment) }
{
    push_basic_date(out, moment)?;
    out.push_str("T")?;
    push_time_of_day(out, (moment % 86400) as u32)?;
    out.push_str("Z")
}
