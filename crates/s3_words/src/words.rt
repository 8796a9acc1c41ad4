//! Command lines.

ghost use Rattle.std.specs.Prelude.{◌≡◌, ◌≢◌, ◌≤◌, length, map, not, string_bytes, OnOk, IfOk, IfErr, Some, None};
ghost use Rattle.s3_words.specs.Commands.{AreFilters, Asks, IsCommand, expires_of, first_of, mode_of, second_of, times_of};
ghost use Rattle.s3_words.specs.Faults.{IsPlaced, count_fault, pair_fault, whole_fault, word_fault};
ghost use Rattle.s3_words.specs.Shown.{IsReader, all_shown, read};
ghost use Rattle.std.specs.Option.{option_or};
ghost use Rattle.s3_words.specs.Endpoints.{IsEndpoint};
ghost use Rattle.s3_words.specs.Places.{places_in};
ghost use Rattle.s3_words.specs.Given.{filters_in, is_given, value_of};
ghost use Rattle.s3_words.specs.declared.options.OptionName.TheVariants.{ContentType, Delete, EndpointUrl, ExactTimestamps, ExpiresIn};
ghost use Rattle.s3_words.specs.declared.options.OptionName.TheVariants.{NoGuessMimeType, Profile, Recursive, Region, SizeOnly};

use crate::commands::{Command, Verb};
use crate::faults::{count_fault, pair_fault};
use crate::given::{copy_of, expires_of, filters_of, is_given, mode_of, times_of};
use crate::options::OptionName;
use crate::places::first_and_second;
use crate::reader::Reader;
use crate::roles::Role;
use path_filters::Filters;
use s3_model::{Endpoint, Mode, OutOfMemory, Place, Text, Times, WordFault};
use std::alloc::Global;
use std::mem;

/// What is wrong with the paths.
fn paths_fault(reader: &Reader<'_>) -> Option<WordFault>
    ensures { result ≡ option_or (count_fault reader.now.verb reader.now.places.items)
        (pair_fault reader.now.verb (is_given Recursive (read reader.now)) reader.now.places.items) }
{
    let recursive = is_given(&reader.roles, OptionName::Recursive);
    count_fault(reader.verb, &reader.places).or(pair_fault(reader.verb, recursive, &reader.places))
}

/// The paths that were read, at most two.
fn paths_of(reader: Reader<'_>) -> (Option<Place>, Option<Place>)
    requires { length reader.places.items ≤ 2 }
    ensures first { result.0 ≡ first_of reader.entry.places.items }
    ensures second { result.1 ≡ second_of reader.entry.places.items }
{
    let Reader {
        roles,
        places,
        endpoint,
        ..
    } = reader;
    mem::drop(roles);
    mem::drop(endpoint);
    first_and_second(places)
}

/// What the options say that takes memory.
struct Copies {
    region: Option<Text>,
    profile: Option<Text>,
    content: Option<Text>,
    filters: Filters,
}

/// What the options say that takes no memory.
#[derive(Drop)]
struct Flags {
    recursive: bool,
    times: Times,
    remove_extra: bool,
    mode: Mode,
    guess: bool,
    expires: u64,
}

/// The region and the profile.
fn region_and_profile(
    alloc: Global,
    roles: &[Role<'_>],
) -> Result<(Option<Text>, Option<Text>), OutOfMemory>
    ensures region { IfOk result (λ both. both.0 ≡ value_of Region (all_shown roles.now)) }
    ensures profile { IfOk result (λ both. both.1 ≡ value_of Profile (all_shown roles.now)) }
{
    let region = copy_of(alloc, roles, OptionName::Region)?;
    let profile = copy_of(alloc, roles, OptionName::Profile)?;
    Ok((region, profile))
}

/// The content type and the filters.
fn content_and_filters(
    alloc: Global,
    roles: &[Role<'_>],
) -> Result<(Option<Text>, Filters), OutOfMemory>
    ensures content { IfOk result (λ both. both.0 ≡ value_of ContentType (all_shown roles.now)) }
    ensures filters { IfOk result (λ both. AreFilters (filters_in (all_shown roles.now)) both.1) }
{
    let content = copy_of(alloc, roles, OptionName::ContentType)?;
    let filters = filters_of(alloc, roles)?;
    Ok((content, filters))
}

fn copies_of(alloc: Global, roles: &[Role<'_>]) -> Result<Copies, OutOfMemory>
    ensures region { IfOk result (λ copies. copies.region ≡ value_of Region (all_shown roles.now)) }
    ensures profile { IfOk result (λ copies. copies.profile ≡ value_of Profile (all_shown roles.now)) }
    ensures content { IfOk result (λ copies. copies.content ≡ value_of ContentType (all_shown roles.now)) }
    ensures filters { IfOk result (λ copies. AreFilters (filters_in (all_shown roles.now)) copies.filters) }
{
    let (region, profile) = region_and_profile(alloc, roles)?;
    match content_and_filters(alloc, roles) {
        Ok((content, filters)) => Ok(Copies {
            region,
            profile,
            content,
            filters,
        }),
        Err(OutOfMemory) => {
            mem::drop(region);
            mem::drop(profile);
            Err(OutOfMemory)
        }
    }
}

fn flags_of(roles: &[Role<'_>]) -> Flags
    ensures recursive { result.recursive ≡ is_given Recursive (all_shown roles.now) }
    ensures times { result.times ≡ times_of (is_given SizeOnly (all_shown roles.now))
        (is_given ExactTimestamps (all_shown roles.now)) }
    ensures remove_extra { result.remove_extra ≡ is_given Delete (all_shown roles.now) }
    ensures mode { result.mode ≡ mode_of (all_shown roles.now) }
    ensures guess { result.guess ≡ not (is_given NoGuessMimeType (all_shown roles.now)) }
    ensures expires { result.expires ≡ expires_of (value_of ExpiresIn (all_shown roles.now)) }
{
    Flags {
        recursive: is_given(roles, OptionName::Recursive),
        times: times_of(roles),
        remove_extra: is_given(roles, OptionName::Delete),
        mode: mode_of(roles),
        guess: !is_given(roles, OptionName::NoGuessMimeType),
        expires: expires_of(roles),
    }
}

/// The command of words without a fault, with what their options say.
fn command_with(reader: Reader<'_>, endpoint: Endpoint, copies: Copies, flags: Flags) -> Command
    requires few { length reader.places.items ≤ 2 }
    ensures verb { result.verb ≡ reader.entry.verb }
    ensures from { result.from ≡ first_of reader.entry.places.items }
    ensures to { result.to ≡ second_of reader.entry.places.items }
    ensures endpoint { result.endpoint ≡ endpoint }
    ensures region { result.region ≡ copies.region }
    ensures profile { result.profile ≡ copies.profile }
    ensures filters { result.filters ≡ copies.filters }
    ensures recursive { result.recursive ≡ flags.recursive }
    ensures times { result.times ≡ flags.times }
    ensures remove_extra { result.remove_extra ≡ flags.remove_extra }
    ensures mode { result.mode ≡ flags.mode }
    ensures content { result.content ≡ copies.content }
    ensures guess { result.guess ≡ flags.guess }
    ensures expires { result.expires ≡ flags.expires }
{
    let Copies {
        region,
        profile,
        content,
        filters,
    } = copies;
    let verb = reader.verb;
    let (from, to) = paths_of(reader);
    Command {
        verb,
        from,
        to,
        endpoint,
        region,
        profile,
        filters,
        recursive: flags.recursive,
        times: flags.times,
        remove_extra: flags.remove_extra,
        mode: flags.mode,
        content,
        guess: flags.guess,
        expires: flags.expires,
    }
}

/// The command of words without a fault.
fn command_of(alloc: Global, reader: Reader<'_>, endpoint: Endpoint) -> Result<Command, WordFault>
    requires few { length reader.places.items ≤ 2 }
    requires places { reader.places.items ≡ places_in (read reader) }
    requires endpoint { IsEndpoint (value_of EndpointUrl (read reader)) (Some endpoint) }
    ensures verb { IfOk result (λ command. command.verb ≡ reader.entry.verb) }
    ensures command { IfOk result (λ command. Asks (read reader.entry) command) }
    ensures fault { IfErr result (λ fault. fault ≡ WordFault.Memory) }
{
    let flags = flags_of(&reader.roles);
    match copies_of(alloc, &reader.roles) {
        Ok(copies) => Ok(command_with(reader, endpoint, copies, flags)),
        Err(OutOfMemory) => {
            mem::drop(endpoint);
            mem::drop(reader);
            Err(WordFault::Memory)
        }
    }
}

/// The command, where nothing is wrong with the words as a whole.
fn whole_command(alloc: Global, mut reader: Reader<'_>) -> Result<Command, WordFault>
    requires { IsReader reader }
    ensures right { OnOk result (whole_fault reader.entry.verb (read reader.entry) ≡ None) }
    ensures verb { IfOk result (λ command. command.verb ≡ reader.entry.verb) }
    ensures command { IfOk result (λ command. Asks (read reader.entry) command) }
    ensures fault { IfErr result (λ fault. fault ≢ WordFault.Memory →
        whole_fault reader.entry.verb (read reader.entry) ≡ Some fault) }
{
    if let Some(fault) = paths_fault(&reader) {
        mem::drop(reader);
        return Err(fault);
    }
    match reader.endpoint.take() {
        Some(endpoint) => command_of(alloc, reader, endpoint),
        None => {
            mem::drop(reader);
            Err(WordFault::NoEndpoint)
        }
    }
}

/// The command of these words, or their first fault.
fn command_from(alloc: Global, words: &[String]) -> Result<Command, WordFault>
    ensures right { OnOk result (word_fault (map string_bytes words.now) ≡ None) }
    ensures command { IfOk result (λ command. IsCommand (map string_bytes words.now) command) }
    ensures fault { IfErr result (λ fault. fault ≢ WordFault.Memory →
        word_fault (map string_bytes words.now) ≡ Some fault) }
{
    let Some((name, rest)) = words.split_first() else {
        return Err(WordFault::NoCommand);
    };
    let Some(verb) = Verb::named(name.as_str()) else {
        return Err(WordFault::UnknownCommand(0));
    };
    match Reader::read_all(alloc, verb, rest) {
        Ok(reader) => whole_command(alloc, reader),
        Err(fault) => Err(fault),
    }
}

/// Reads the words of a command line, which begin with the command (AWS CLI Command Reference, `s3`).
///
/// Paths and options may be mixed; a value follows its option, or stands behind `=` in the same word, and every word
/// behind `--` is a path. Words are judged from left to right, an option's name first, then that it is given a second
/// time, then its value; then the number of paths, what they are, and that there is an endpoint. A fault names the
/// index of its word, counted from 0. The time grows with the bytes of the words.
pub fn read_words(alloc: Global, words: &[String]) -> Result<Command, WordFault>
    ensures right { OnOk result (word_fault (map string_bytes words.now) ≡ None) }
    ensures command { IfOk result (λ command. IsCommand (map string_bytes words.now) command) }
    ensures fault { IfErr result (λ fault. fault ≢ WordFault.Memory →
        word_fault (map string_bytes words.now) ≡ Some fault) }
    ensures place { IfErr result (λ fault. IsPlaced (length words.now) fault) }
{
    command_from(alloc, words)
}
