//! The numbers of the configuration.

ghost use Rattle.std.specs.Prelude.{◌≡◌, ◌≤◌, OnOk, IfOk, IfErr, Some, None, fold, map, option_map};
ghost use Rattle.s3_model.specs.Validity.{IsValidConfig, IsWithin};
ghost use Rattle.aws_profile.specs.Answers.{config_of, earlier, first_misread, misread};
ghost use Rattle.aws_profile.specs.ShownLimits.{misread_in, misread_shown};
ghost use Rattle.aws_profile.specs.ShownValues.{config_shown, value_shown};
ghost use Rattle.aws_profile.specs.Values.{amount_or};

use crate::amounts::{Unit, amount};
use crate::slots::Found;
use crate::values::ConfigValues;
use s3_model::Config;

/// In bytes.
const DEFAULT_SIZE: u64 = 8_388_608;

/// In bytes.
const MOST_SIZE: u64 = 1 << 30;

/// A number of the configuration, and its line where it is out of its form; the value is then the default.
#[derive(Clone, Copy)]
pub struct Limit {
    pub name: &'static str,
    pub value: u64,
    pub bad_line: Option<u32>,
}

/// The line and the name of a number that is out of its form.
#[derive(Clone, Copy)]
pub struct Misread {
    pub line: u32,
    pub name: &'static str,
}

impl Limit {
    fn misread(&self) -> Option<Misread>
        ensures { option_map misread_shown result ≡ misread_in self.now }
    {
        let line = self.bad_line?;
        let name = self.name;
        Some(Misread { line, name })
    }
}

fn read_limit(
    name: &'static str,
    default: u64,
    unit: Unit,
    most: u64,
    found: Option<Found<'_>>,
) -> Limit
    requires { IsWithin 1 default most }
    ensures value { result.value ≡ amount_or default unit most (value_shown found.entry) }
    ensures bad { misread_in result ≡ misread name.entry.now unit most (value_shown found.entry) }
    ensures within { IsWithin 1 result.value most }
{
    let Some(found) = found else {
        return Limit {
            name,
            value: default,
            bad_line: None,
        };
    };
    match amount(unit, most, found.text) {
        Some(value) => Limit {
            name,
            value,
            bad_line: None,
        },
        None => Limit {
            name,
            value: default,
            bad_line: Some(found.line),
        },
    }
}

/// The one with the lower line; the first where they are equal.
fn earlier(first: Option<Misread>, other: Option<Misread>) -> Option<Misread>
    ensures { option_map misread_shown result ≡ earlier (option_map misread_shown first)
        (option_map misread_shown other) }
{
    match (first, other) {
        (Some(a), Some(b)) => Some(if b.line < a.line { b } else { a }),
        (Some(a), None) => Some(a),
        (None, other) => other,
    }
}

fn earliest(limits: &[Limit]) -> Option<Misread>
    ensures { option_map misread_shown result ≡ fold earlier None (map misread_in limits.now) }
{
    let mut first: Option<Misread> = None;
    for limit in limits {
        first = earlier(first, limit.misread());
    }
    first
}

/// The configuration that the values make; the error is the number out of its form that stands first in the file.
pub(crate) fn config_of(values: &ConfigValues<'_>) -> Result<Config, Misread>
    ensures fits { OnOk result (first_misread (config_shown values.now) ≡ None) }
    ensures config { IfOk result (λ config. config ≡ config_of (config_shown values.now)) }
    ensures valid { IfOk result IsValidConfig }
    ensures bad { IfErr result (λ bad. first_misread (config_shown values.now) ≡ Some (misread_shown bad)) }
{
    let attempts = read_limit("max_attempts", 3, Unit::Count, 10, values.attempts);
    let lanes = read_limit(
        "max_concurrent_requests",
        10,
        Unit::Count,
        1000,
        values.lanes,
    );
    let queue = read_limit("max_queue_size", 1000, Unit::Count, 100_000, values.queue);
    let threshold = read_limit(
        "multipart_threshold",
        DEFAULT_SIZE,
        Unit::Bytes,
        MOST_SIZE,
        values.threshold,
    );
    let chunk = read_limit(
        "multipart_chunksize",
        DEFAULT_SIZE,
        Unit::Bytes,
        MOST_SIZE,
        values.chunk,
    );
    let buffers = read_limit("part_buffers", 10, Unit::Count, 64, values.buffers);
    if let Some(bad) = earliest(&[attempts, lanes, queue, threshold, chunk, buffers]) {
        return Err(bad);
    }
    Ok(Config {
        threshold: threshold.value,
        chunk: chunk.value,
        lanes: lanes.value as u32,
        queue: queue.value as u32,
        buffers: buffers.value as u32,
        attempts: attempts.value as u32,
    })
}
