//! The settings of a row, and the limits of all.

ghost use Rattle.std.specs.Prelude.{◌≡◌, IfSome};
ghost use Rattle.s3_model.specs.Validity.{IsValidConfig, IsValidLimits};

use s3_model::{Config, Limits};

/// Pieces of 4 to 64 bytes, at most 4 of them, and at most 256 bytes in all.
pub fn limits() -> Limits
    ensures valid { IsValidLimits result }
    ensures most { result.max_object ≡ 256 }
{
    Limits {
        min_part: 4,
        max_part: 64,
        max_parts: 4,
        max_object: 256,
    }
}

/// So many lanes, tasks at a time and buffers, where these are allowed.
fn config_of(lanes: u32, queue: u32, buffers: u32) -> Option<Config>
    ensures { IfSome result IsValidConfig }
{
    if lanes < 1 || lanes > 1000 || queue < 1 || queue > 100_000 || buffers < 1 || buffers > 64 {
        return None;
    }
    Some(Config {
        threshold: 8,
        chunk: 4,
        lanes,
        queue,
        buffers,
        attempts: 3,
    })
}

/// The settings that the words `LANES QUEUE BUFFERS` name. None where they are not allowed.
pub fn read_config(text: &str) -> Option<Config>
    ensures { IfSome result IsValidConfig }
{
    let (lanes, rest) = text.split_once(' ')?;
    let (queue, buffers) = rest.split_once(' ')?;
    config_of(
        lanes.parse().ok()?,
        queue.parse().ok()?,
        buffers.parse().ok()?,
    )
}
