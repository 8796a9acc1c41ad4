//! Settings that take over the texts of the environment's words.

ghost use Rattle.std.specs.Prelude.{◌≡◌, ◌≢◌, ◌≤◌, Err, IfErr, IfOk, IsSome, None, Ok, Some, is_some, length, option_map, if◌then◌else◌};
ghost use Rattle.s3_model.specs.Validity.{IsValidConfig};
ghost use Rattle.aws_profile.specs.Answers.{access_key, answer, key_of_words, keys_made, settings_by};
ghost use Rattle.aws_profile.specs.ShownAnswers.{IsWithoutText};
ghost use Rattle.aws_profile.specs.ShownKeys.{key_shown};
ghost use Rattle.aws_profile.specs.Taken.{KeepsWords, key_taken, key_with, region_with};
ghost use Rattle.aws_profile.specs.Values.{usable};

use crate::answers::{Choice, decide, owned};
use crate::keys::{AccessKey, has_key, has_region, is_visible, token_of};
use s3_model::{Config, EnvWords, Keys, OutOfMemory, ProfileFault, Settings, Text};
use std::alloc::Global;
use std::mem;

/// An access key that owns its texts. It has no `Debug`, so that no secret is printed.
#[derive(Drop)]
pub struct KeyTexts {
    pub id: Text,
    pub secret: Text,
    pub token: Option<Text>,
}

/// What of the settings stands in the files, and the configuration.
#[derive(Drop)]
struct Copies {
    key: Option<KeyTexts>,
    region: Option<Text>,
    config: Config,
}

/// A copy of a key's id and secret.
fn id_and_secret(alloc: Global, key: AccessKey<'_>) -> Result<(Text, Text), OutOfMemory>
    ensures id { IfOk result (λ both. both.0 ≡ key.entry.id.now) }
    ensures secret { IfOk result (λ both. both.1 ≡ key.entry.secret.now) }
{
    let id = Text::of(alloc, key.id)?;
    let secret = Text::of(alloc, key.secret)?;
    Ok((id, secret))
}

fn texts_of(alloc: Global, key: AccessKey<'_>) -> Result<KeyTexts, OutOfMemory>
    ensures { IfOk result (λ texts. key_taken texts ≡ key_shown key.entry) }
{
    let (id, secret) = id_and_secret(alloc, key)?;
    match token_of(alloc, key.token) {
        Ok(token) => Ok(KeyTexts { id, secret, token }),
        Err(OutOfMemory) => {
            mem::drop(id);
            mem::drop(secret);
            Err(OutOfMemory)
        }
    }
}

/// A copy of a key, unless the words have it.
fn copy_key(
    alloc: Global,
    words: &EnvWords,
    key: AccessKey<'_>,
) -> Result<Option<KeyTexts>, OutOfMemory>
    ensures { IfOk result (λ copy. option_map key_taken copy ≡
        (if is_some (key_of_words words.now) then None else Some (key_shown key.entry))) }
{
    if has_key(words) {
        return Ok(None);
    }
    match texts_of(alloc, key) {
        Ok(texts) => Ok(Some(texts)),
        Err(OutOfMemory) => Err(OutOfMemory),
    }
}

/// A copy of a region, unless the words have it.
fn copy_region(alloc: Global, words: &EnvWords, region: &str) -> Result<Option<Text>, OutOfMemory>
    ensures { IfOk result (λ copy. copy ≡
        (if is_some (usable words.now.region) then None else Some region.now)) }
{
    if has_region(words) {
        return Ok(None);
    }
    Ok(Some(Text::of(alloc, region)?))
}

fn copy_choice(alloc: Global, words: &EnvWords, choice: Choice<'_>) -> Result<Copies, OutOfMemory>
    requires { KeepsWords words.now choice }
    ensures key { IfOk result (λ copies. key_with words.now copies.key ≡ Some (key_shown choice.entry.key)) }
    ensures region { IfOk result (λ copies. region_with words.now copies.region ≡ Some choice.entry.region.now) }
    ensures config { IfOk result (λ copies. copies.config ≡ choice.entry.config) }
{
    let key = copy_key(alloc, words, choice.key)?;
    match copy_region(alloc, words, choice.region) {
        Ok(region) => Ok(Copies {
            key,
            region,
            config: choice.config,
        }),
        Err(OutOfMemory) => {
            mem::drop(key);
            Err(OutOfMemory)
        }
    }
}

/// The text, where it can stand in a header.
fn take_usable(word: Option<Text>) -> Option<Text>
    ensures { result ≡ usable word }
{
    match word {
        Some(text) if is_visible(text.as_str().as_bytes()) => Some(text),
        _ => None,
    }
}

fn take_key(id: Option<Text>, secret: Option<Text>, token: Option<Text>) -> Option<KeyTexts>
    ensures { option_map key_taken result ≡ access_key (usable id) (usable secret) (usable token) }
{
    match (take_usable(id), take_usable(secret)) {
        (Some(id), Some(secret)) => Some(KeyTexts {
            id,
            secret,
            token: take_usable(token),
        }),
        _ => None,
    }
}

/// The key of these words, unless the command line named the profile.
fn key_of(
    named: bool,
    id: Option<Text>,
    secret: Option<Text>,
    token: Option<Text>,
) -> Option<KeyTexts>
    ensures { option_map key_taken result ≡
        (if named then None else access_key (usable id) (usable secret) (usable token)) }
{
    if named {
        mem::drop(id);
        mem::drop(secret);
        mem::drop(token);
        None
    } else {
        take_key(id, secret, token)
    }
}

/// The key and the region of the words.
fn key_and_region(words: EnvWords) -> (Option<KeyTexts>, Option<Text>)
    ensures key { option_map key_taken result.0 ≡ key_of_words words }
    ensures region { result.1 ≡ usable words.region }
{
    let EnvWords {
        id,
        secret,
        token,
        region,
        profile,
        named,
    } = words;
    mem::drop(profile);
    (key_of(named, id, secret, token), take_usable(region))
}

fn settings_of(key: KeyTexts, region: Text, config: Config) -> Settings
    ensures { result ≡ record { keys = keys_made (key_taken key) region; config = config } }
{
    let KeyTexts { id, secret, token } = key;
    Settings {
        keys: Keys {
            id,
            secret,
            token,
            region,
        },
        config,
    }
}

/// The settings of words and of what was copied beside them.
fn join(words: EnvWords, copies: Copies) -> Settings
    requires key { IsSome (key_with words copies.key) }
    requires region { IsSome (region_with words copies.region) }
    ensures { settings_by (key_with words copies.key) (region_with words copies.region) copies.config ≡ Ok result }
{
    let (taken_key, taken_region) = key_and_region(words);
    let Copies {
        key,
        region,
        config,
    } = copies;
    let Some(key) = taken_key.or(key) else {
        unreachable!()
    };
    let Some(region) = taken_region.or(region) else {
        unreachable!()
    };
    settings_of(key, region, config)
}

/// The settings of a run, as `settings` answers them. They take the texts of the words over, and those of the files are
/// copied once.
pub fn take_settings(
    alloc: Global,
    words: EnvWords,
    config: &[u8],
    credentials: &[u8],
) -> Result<Settings, ProfileFault>
    requires config { length config.now ≤ 1048576 }
    requires credentials { length credentials.now ≤ 1048576 }
    ensures settings { IfOk result (λ settings. answer words config.now credentials.now ≡ Ok settings) }
    ensures fault { IfErr result (λ fault. fault ≢ ProfileFault.Memory →
        answer words config.now credentials.now ≡ Err fault) }
    ensures plain { (fault : ProfileFault) → answer words config.now credentials.now ≡ Err fault →
        IsWithoutText fault → result ≡ Err fault }
    ensures valid { IfOk result (λ settings. IsValidConfig settings.config) }
{
    let copies = match decide(&words, config, credentials) {
        Ok(choice) => copy_choice(alloc, &words, choice),
        Err(refusal) => {
            let fault = owned(alloc, refusal);
            mem::drop(words);
            return Err(fault);
        }
    };
    match copies {
        Ok(copies) => Ok(join(words, copies)),
        Err(OutOfMemory) => {
            mem::drop(words);
            Err(ProfileFault::Memory)
        }
    }
}
