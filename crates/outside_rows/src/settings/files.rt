//! Settings from words and files.

use crate::bytes::bytes_of;
use crate::lines::{field_and_rest, word_and_rest};
use crate::rows::add;
use crate::settings::shown::{add_fault, add_settings};
use crate::settings::spelled::option;
use aws_profile::{EnvWords, ProfileFault, Settings, settings};
use std::alloc::Global;
use std::mem;

/// The words of a list: an id, a secret, a token, a region, a profile, and whether it was named.
fn words(alloc: Global, list: &str) -> EnvWords {
    let (id, list) = word_and_rest(list);
    let (secret, list) = word_and_rest(list);
    let (token, list) = word_and_rest(list);
    let (region, list) = word_and_rest(list);
    let (profile, named) = word_and_rest(list);
    EnvWords {
        id: option(alloc, id),
        secret: option(alloc, secret),
        token: option(alloc, token),
        region: option(alloc, region),
        profile: option(alloc, profile),
        named: !named.is_empty(),
    }
}

fn add_read(alloc: Global, row: &mut String, words: &EnvWords, config: &[u8], credentials: &[u8]) {
    if config.len() > 1_048_576 || credentials.len() > 1_048_576 {
        return add(row, "a file is too long");
    }
    let found = settings(alloc, words, config, credentials);
    add_found(row, &found);
    mem::drop(found);
}

fn add_found(row: &mut String, found: &Result<Settings, ProfileFault>) {
    match found {
        Ok(settings) => add_settings(row, settings),
        Err(fault) => add_fault(row, fault),
    }
}

/// Adds what words and files give.
pub(crate) fn add_answer(alloc: Global, row: &mut String, fields: &str) {
    let (list, files) = field_and_rest(fields);
    let (config, credentials) = field_and_rest(files);
    let config = bytes_of(alloc, config);
    let credentials = bytes_of(alloc, credentials);
    let words = words(alloc, list);
    add_read(alloc, row, &words, &config, &credentials);
    mem::drop(words);
}
