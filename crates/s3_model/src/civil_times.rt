//! Moments as dates and times in UTC.

ghost use Rattle.std.specs.Prelude.{◌≡◌, ◌<◌, ◌/◌, ◌%◌, pos};
ghost use Rattle.jiff_core.specs.Calendar.{IsCivilDate, days_from_civil};
ghost use Rattle.s3_model.specs.CivilTimes.{civil_day};

use jiff_core::civil::Date;

/// A day of the calendar and the seconds since its midnight, in UTC.
#[derive(Clone, Copy)]
pub struct CivilTime {
    pub year: u16,
    pub month: u8,
    pub day: u8,
    pub second: u32,
}

/// 1970-01-01, in days since the first day that the calendar library has.
const EPOCH: u32 = 4_371_587;

const SECONDS_PER_DAY: u64 = 86_400;

/// What the calendar and the clock show at a moment, which is in seconds since 1970-01-01T00:00:00Z.
pub fn civil_time(moment: u64) -> CivilTime
    requires { moment < 253402300800 }
    ensures year { result.year ≡ (civil_day (moment / 86400)).year }
    ensures month { result.month ≡ (civil_day (moment / 86400)).month }
    ensures day { result.day ≡ (civil_day (moment / 86400)).day }
    ensures valid { IsCivilDate (pos result.year) result.month result.day }
    ensures days { days_from_civil (pos result.year) result.month result.day ≡ pos (moment / 86400) }
    ensures second { result.second ≡ moment % 86400 }
{
    let date = Date::from_days_since_min(EPOCH + (moment / SECONDS_PER_DAY) as u32);
    CivilTime {
        year: date.year as u16,
        month: date.month,
        day: date.day,
        second: (moment % SECONDS_PER_DAY) as u32,
    }
}
