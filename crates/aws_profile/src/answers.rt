//! The settings of a run.

ghost use Rattle.std.specs.Prelude.{◌≡◌, ◌≢◌, ◌≤◌, ◌||◌, Err, IfErr, IfOk, Ok, codes, length};
ghost use Rattle.std.specs.Str.{bytes_eq};
ghost use Rattle.s3_model.specs.Validity.{IsValidConfig};
ghost use Rattle.aws_profile.specs.Answers.{
  answer,
  config_of,
  first_misread,
  key_from,
  profile_of,
  region_from,
  setting_fault,
  settings_by,
  unless,
};
ghost use Rattle.aws_profile.specs.Taken.{KeepsWords};
ghost use Rattle.aws_profile.specs.ShownValues.{config_shown, keys_shown};
ghost use Rattle.aws_profile.specs.ShownAnswers.{IsWithoutText, choice_shown, decided_shown, refusal_shown};

use crate::keys::{AccessKey, key_from, keys_of, region_from};
use crate::limits::config_of;
use crate::values::{ConfigValues, KeyValues, read_config, read_keys};
use s3_model::{Config, EnvWords, OutOfMemory, ProfileFault, Settings, Text};
use std::alloc::Global;

const DEFAULT_PROFILE: &str = "default";

/// The settings of a run, lent from where they were found. It has no `Debug`, so that no secret is printed.
#[derive(Clone, Copy)]
pub struct Choice<'a> {
    pub key: AccessKey<'a>,
    pub region: &'a str,
    pub config: Config,
}

/// Why there are no settings, lent from where it was found; lines are counted from 1.
#[derive(Clone, Copy)]
pub enum Refusal<'a> {
    NoKeys,
    NoRegion,
    NoProfile(&'a str),
    BadLine { credentials: bool, line: u32 },
    BadSetting { line: u32, name: &'static str },
}

fn profile_of(words: &EnvWords) -> &str
    ensures { result.now ≡ profile_of words.now }
{
    match &words.profile {
        Some(name) if !name.as_str().is_empty() => name.as_str(),
        _ => DEFAULT_PROFILE,
    }
}

fn is_known(profile: &str, in_config: bool, in_credentials: bool) -> bool
    ensures { result ≡ (bytes_eq profile.now (codes "default") || in_config || in_credentials) }
{
    profile == DEFAULT_PROFILE || in_config || in_credentials
}

impl Choice<'_> {
    /// An owned copy.
    pub fn to_settings(self, alloc: Global) -> Result<Settings, OutOfMemory>
        ensures { IfOk result (λ settings. settings ≡ choice_shown self.entry) }
    {
        let keys = keys_of(alloc, self.key, self.region)?;
        Ok(Settings {
            keys,
            config: self.config,
        })
    }
}

impl Refusal<'_> {
    /// An owned copy. Only a text wants memory.
    pub fn to_fault(self, alloc: Global) -> Result<ProfileFault, OutOfMemory>
        ensures fault { IfOk result (λ fault. fault ≡ refusal_shown self.entry) }
        ensures plain { IsWithoutText (refusal_shown self.entry) → result ≡ Ok (refusal_shown self.entry) }
    {
        match self {
            Refusal::NoKeys => Ok(ProfileFault::NoKeys),
            Refusal::NoRegion => Ok(ProfileFault::NoRegion),
            Refusal::NoProfile(name) => Ok(ProfileFault::NoProfile(Text::of(alloc, name)?)),
            Refusal::BadLine { credentials, line } => {
                Ok(ProfileFault::BadLine { credentials, line })
            }
            Refusal::BadSetting { line, name } => {
                let name = Text::of(alloc, name)?;
                Ok(ProfileFault::BadSetting { line, name })
            }
        }
    }
}

/// What the environment's words and the values of a profile make.
fn choose<'a>(
    words: &'a EnvWords,
    values: &ConfigValues<'a>,
    keys: &KeyValues<'a>,
) -> Result<Choice<'a>, Refusal<'a>>
    ensures choice { decided_shown result ≡ unless (setting_fault (first_misread (config_shown values.now)))
        (settings_by (key_from words.now (keys_shown keys.now)) (region_from words.now (config_shown values.now))
        (config_of (config_shown values.now))) }
    ensures words { IfOk result (KeepsWords words.now) }
    ensures valid { IfOk result (λ choice. IsValidConfig choice.config) }
{
    let config = match config_of(values) {
        Ok(config) => config,
        Err(bad) => {
            return Err(Refusal::BadSetting {
                line: bad.line,
                name: bad.name,
            });
        }
    };
    let Some(key) = key_from(words, keys) else {
        return Err(Refusal::NoKeys);
    };
    let Some(region) = region_from(words, values) else {
        return Err(Refusal::NoRegion);
    };
    Ok(Choice {
        key,
        region,
        config,
    })
}

/// What the environment's words and the bytes of the AWS CLI's config and credentials files make, without memory (AWS CLI
/// User Guide, "Configuration and credential file settings" and "Environment variables").
///
/// A file has at most 1,048,576 bytes, and an absent one is empty. The first refusal in this order is answered: a bad line
/// of the config file, one of the credentials file, a profile that neither has, a number out of its form or range, no
/// key, no region. Sizes are bytes, with powers of 1,024 as units. No refusal has a part of a key in it.
pub fn decide<'a>(
    words: &'a EnvWords,
    config: &'a [u8],
    credentials: &'a [u8],
) -> Result<Choice<'a>, Refusal<'a>>
    requires config { length config.now ≤ 1048576 }
    requires credentials { length credentials.now ≤ 1048576 }
    ensures answer { decided_shown result ≡ answer words.now config.now credentials.now }
    ensures words { IfOk result (KeepsWords words.now) }
    ensures valid { IfOk result (λ choice. IsValidConfig choice.config) }
{
    let profile = profile_of(words);
    let values = match read_config(config, profile) {
        Ok(values) => values,
        Err(line) => {
            return Err(Refusal::BadLine {
                credentials: false,
                line,
            });
        }
    };
    let keys = match read_keys(credentials, profile) {
        Ok(keys) => keys,
        Err(line) => {
            return Err(Refusal::BadLine {
                credentials: true,
                line,
            });
        }
    };
    if !is_known(profile, values.has_section, keys.has_section) {
        return Err(Refusal::NoProfile(profile));
    }
    choose(words, &values, &keys)
}

/// The settings of a run: an owned copy of what `decide` answers. Only texts want memory.
pub fn settings(
    alloc: Global,
    words: &EnvWords,
    config: &[u8],
    credentials: &[u8],
) -> Result<Settings, ProfileFault>
    requires config { length config.now ≤ 1048576 }
    requires credentials { length credentials.now ≤ 1048576 }
    ensures settings { IfOk result (λ settings. answer words.now config.now credentials.now ≡ Ok settings) }
    ensures fault { IfErr result (λ fault. fault ≢ ProfileFault.Memory →
        answer words.now config.now credentials.now ≡ Err fault) }
    ensures plain { (fault : ProfileFault) → answer words.now config.now credentials.now ≡ Err fault →
        IsWithoutText fault → result ≡ Err fault }
    ensures valid { IfOk result (λ settings. IsValidConfig settings.config) }
{
    match decide(words, config, credentials) {
        Ok(choice) => choice.to_settings(alloc).map_err(|_| ProfileFault::Memory),
        Err(refusal) => Err(owned(alloc, refusal)),
    }
}

pub(crate) fn owned(alloc: Global, refusal: Refusal<'_>) -> ProfileFault
    ensures fault { result ≢ ProfileFault.Memory → result ≡ refusal_shown refusal.entry }
    ensures plain { IsWithoutText (refusal_shown refusal.entry) → result ≡ refusal_shown refusal.entry }
{
    match refusal.to_fault(alloc) {
        Ok(fault) => fault,
        Err(_) => ProfileFault::Memory,
    }
}
