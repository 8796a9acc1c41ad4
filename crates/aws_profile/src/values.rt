//! The values of a profile's sections.

ghost use Rattle.std.specs.Prelude.{◌≡◌, ◌≤◌, length, map, OnOk, IfOk, IfErr, Some, None, codes};
ghost use Rattle.std.specs.Str.{bytes_eq};
ghost use Rattle.std.specs.Str.Lines.{lines};
ghost use Rattle.aws_profile.specs.Answers.{config_section, config_values, key_values};
ghost use Rattle.aws_profile.specs.Contexts.{section_name};
ghost use Rattle.aws_profile.specs.Sections.{bad_line, has_section, readings};
ghost use Rattle.aws_profile.specs.ShownValues.{config_shown, keys_shown};
ghost use Rattle.aws_profile.specs.Slots.{config_slots, key_slots, slot_shown};

use crate::context::Sought;
use crate::reader::read_file;
use crate::slots::{Found, Place, Slot};

/// The values of a config section that are used, and whether there is such a section.
#[derive(Clone, Copy)]
pub struct ConfigValues<'a> {
    pub has_section: bool,
    pub region: Option<Found<'a>>,
    pub attempts: Option<Found<'a>>,
    pub lanes: Option<Found<'a>>,
    pub queue: Option<Found<'a>>,
    pub threshold: Option<Found<'a>>,
    pub chunk: Option<Found<'a>>,
    pub buffers: Option<Found<'a>>,
}

/// The values of a credentials section that are used, and whether there is such a section.
#[derive(Clone, Copy)]
pub struct KeyValues<'a> {
    pub has_section: bool,
    pub id: Option<Found<'a>>,
    pub secret: Option<Found<'a>>,
    pub token: Option<Found<'a>>,
}

fn sought_config(profile: &str) -> Sought<'_>
    ensures { section_name result ≡ config_section profile.now }
{
    let front = if profile == "default" { "" } else { "profile " };
    Sought { front, profile }
}

fn config_slots<'a>() -> [Slot<'a>; 7]
    ensures { map slot_shown result ≡ config_slots }
{
    [
        Slot::new(Place::Section, "region"),
        Slot::new(Place::Section, "max_attempts"),
        Slot::new(Place::S3, "max_concurrent_requests"),
        Slot::new(Place::S3, "max_queue_size"),
        Slot::new(Place::S3, "multipart_threshold"),
        Slot::new(Place::S3, "multipart_chunksize"),
        Slot::new(Place::S3, "part_buffers"),
    ]
}

/// Reads the profile's section of a config file; the error is the number of the first line that is wrong.
pub(crate) fn read_config<'a>(file: &'a [u8], profile: &str) -> Result<ConfigValues<'a>, u32>
    requires { length file.now ≤ 1048576 }
    ensures right { OnOk result (bad_line file.now ≡ None) }
    ensures has { IfOk result (λ values. values.has_section ≡ has_section (config_section profile.now)
        (lines file.now)) }
    ensures values { IfOk result (λ values. config_shown values ≡ config_values (readings file.now)
        (config_section profile.now)) }
    ensures wrong { IfErr result (λ line. bad_line file.now ≡ Some line) }
{
    let mut slots = config_slots();
    let has_section = read_file(file, &sought_config(profile), &mut slots)?;
    let [region, attempts, lanes, queue, threshold, chunk, buffers] = slots;
    Ok(ConfigValues {
        has_section,
        region: region.found,
        attempts: attempts.found,
        lanes: lanes.found,
        queue: queue.found,
        threshold: threshold.found,
        chunk: chunk.found,
        buffers: buffers.found,
    })
}

fn key_slots<'a>() -> [Slot<'a>; 3]
    ensures { map slot_shown result ≡ key_slots }
{
    [
        Slot::new(Place::Section, "aws_access_key_id"),
        Slot::new(Place::Section, "aws_secret_access_key"),
        Slot::new(Place::Section, "aws_session_token"),
    ]
}

/// Reads the profile's section of a credentials file; the error is the number of the first line that is wrong.
pub(crate) fn read_keys<'a>(file: &'a [u8], profile: &str) -> Result<KeyValues<'a>, u32>
    requires { length file.now ≤ 1048576 }
    ensures right { OnOk result (bad_line file.now ≡ None) }
    ensures has { IfOk result (λ values. values.has_section ≡ has_section profile.now (lines file.now)) }
    ensures values { IfOk result (λ values. keys_shown values ≡ key_values (readings file.now) profile.now) }
    ensures wrong { IfErr result (λ line. bad_line file.now ≡ Some line) }
{
    let mut slots = key_slots();
    let sought = Sought { front: "", profile };
    let has_section = read_file(file, &sought, &mut slots)?;
    let [id, secret, token] = slots;
    Ok(KeyValues {
        has_section,
        id: id.found,
        secret: secret.found,
        token: token.found,
    })
}
