//! The access key and the region.

ghost use Rattle.std.specs.Prelude.{◌≡◌, Some, IfOk, is_some, option_copied, option_map};
ghost use Rattle.std.specs.List.{list_all};
ghost use Rattle.std.specs.Option.{option_or};
ghost use Rattle.aws_profile.specs.Answers.{
  access_key,
  key_from,
  key_of_values,
  key_of_words,
  keys_made,
  region_from,
  text_of,
};
ghost use Rattle.aws_profile.specs.ShownKeys.{key_shown};
ghost use Rattle.aws_profile.specs.ShownValues.{config_shown, keys_shown, value_shown};
ghost use Rattle.aws_profile.specs.Values.{is_visible, is_visible_byte, usable};

use crate::slots::Found;
use crate::values::{ConfigValues, KeyValues};
use s3_model::{EnvWords, Keys, OutOfMemory, Text};
use std::alloc::Global;

/// An access key, lent from where it was found. It has no `Debug`, so that no secret is printed.
#[derive(Clone, Copy)]
pub struct AccessKey<'a> {
    pub id: &'a str,
    pub secret: &'a str,
    pub token: Option<&'a str>,
}

fn is_visible_byte(byte: u8) -> bool
    ensures { result ≡ is_visible_byte byte }
{
    33 <= byte && byte <= 126
}

fn all_visible(text: &[u8]) -> bool
    ensures { result ≡ list_all is_visible_byte text.now }
{
    text.iter().all(|byte| is_visible_byte(*byte))
}

/// Whether a text can stand in a header: visible ASCII characters, at least one.
pub fn is_visible(text: &[u8]) -> bool
    ensures { result ≡ is_visible text.now }
{
    !text.is_empty() && all_visible(text)
}

/// The text, where it is one of visible ASCII characters.
fn usable(text: &[u8]) -> Option<&str>
    ensures { option_copied result ≡ usable (Some text.now) }
{
    if !is_visible(text) {
        return None;
    }
    str::from_utf8(text).ok()
}

fn usable_word(word: &Option<Text>) -> Option<&str>
    ensures { option_copied result ≡ usable word.now }
{
    match word {
        Some(word) => usable(word.as_str().as_bytes()),
        None => None,
    }
}

fn usable_value<'a>(found: Option<Found<'a>>) -> Option<&'a str>
    ensures { option_copied result ≡ usable (text_of (value_shown found.entry)) }
{
    match found {
        Some(found) => usable(found.text),
        None => None,
    }
}

fn access_key<'a>(
    id: Option<&'a str>,
    secret: Option<&'a str>,
    token: Option<&'a str>,
) -> Option<AccessKey<'a>>
    ensures { option_map key_shown result ≡ access_key (option_copied id.entry) (option_copied secret.entry)
        (option_copied token.entry) }
{
    match (id, secret) {
        (Some(id), Some(secret)) => Some(AccessKey { id, secret, token }),
        _ => None,
    }
}

fn key_of_words(words: &EnvWords) -> Option<AccessKey<'_>>
    ensures { option_map key_shown result ≡ key_of_words words.now }
{
    if words.named {
        return None;
    }
    access_key(
        usable_word(&words.id),
        usable_word(&words.secret),
        usable_word(&words.token),
    )
}

/// Whether the variables have a key that is used.
pub(crate) fn has_key(words: &EnvWords) -> bool
    ensures { result ≡ is_some (key_of_words words.now) }
{
    key_of_words(words).is_some()
}

/// Whether the words have a region that can be used.
pub(crate) fn has_region(words: &EnvWords) -> bool
    ensures { result ≡ is_some (usable words.now.region) }
{
    usable_word(&words.region).is_some()
}

fn key_of_values<'a>(values: &KeyValues<'a>) -> Option<AccessKey<'a>>
    ensures { option_map key_shown result ≡ key_of_values (keys_shown values.now) }
{
    access_key(
        usable_value(values.id),
        usable_value(values.secret),
        usable_value(values.token),
    )
}

/// The key of the variables, else that of the file; their parts are never mixed.
pub(crate) fn key_from<'a>(words: &'a EnvWords, values: &KeyValues<'a>) -> Option<AccessKey<'a>>
    ensures { option_map key_shown result ≡ key_from words.now (keys_shown values.now) }
{
    match key_of_words(words) {
        Some(key) => Some(key),
        None => key_of_values(values),
    }
}

pub(crate) fn region_from<'a>(words: &'a EnvWords, values: &ConfigValues<'a>) -> Option<&'a str>
    ensures { option_copied result ≡ region_from words.now (config_shown values.now) }
{
    match usable_word(&words.region) {
        Some(region) => Some(region),
        None => usable_value(values.region),
    }
}

pub(crate) fn token_of(alloc: Global, token: Option<&str>) -> Result<Option<Text>, OutOfMemory>
    ensures { IfOk result (λ copy. copy ≡ option_copied token.entry) }
{
    match token {
        Some(token) => Ok(Some(Text::of(alloc, token)?)),
        None => Ok(None),
    }
}

/// Owned copies of a key and a region.
pub(crate) fn keys_of(alloc: Global, key: AccessKey<'_>, region: &str) -> Result<Keys, OutOfMemory>
    ensures { IfOk result (λ keys. keys ≡ keys_made (key_shown key.entry) region.now) }
{
    let id = Text::of(alloc, key.id)?;
    let secret = Text::of(alloc, key.secret)?;
    let token = token_of(alloc, key.token)?;
    let region = Text::of(alloc, region)?;
    Ok(Keys {
        id,
        secret,
        token,
        region,
    })
}
