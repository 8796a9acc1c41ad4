//! Lines of runs that ended before their tasks.

ghost use Rattle.result_lines.specs.Faults.{IsListingFault, IsPlanFault, IsWalkFault};

use crate::commands::words_of;
use crate::lines::{number, small_number, text_of, word_and_rest};
use crate::printed::causes::cause_of;
use crate::printed::values::front_and_rest;
use result_lines::{
    answer_line, listing_line, memory_line, plan_line, profile_line, unread_line, walk_line,
    word_line,
};
use s3_model::{
    BadListing, EndpointFault, OutOfMemory, PlanFault, ProfileFault, Text, WalkFault, WordFault,
};
use std::alloc::Global;
use std::mem;

/// A fault of the words, of which it names that one.
fn word_fault(name: &str, place: usize) -> WordFault {
    match name {
        "NoCommand" => WordFault::NoCommand,
        "UnknownCommand" => WordFault::UnknownCommand(place),
        "UnknownOption" => WordFault::UnknownOption(place),
        "NoValue" => WordFault::NoValue(place),
        "BadValue" => WordFault::BadValue(place),
        "PathCount" => WordFault::PathCount {
            found: place,
            wanted: 2,
        },
        "Pair" => WordFault::Pair,
        "Twice" => WordFault::Twice(place),
        "Endpoint" => WordFault::Endpoint(place, EndpointFault::Tls),
        "NoEndpoint" => WordFault::NoEndpoint,
        _ => WordFault::Memory,
    }
}

/// The line of a fault of words.
fn of_words(alloc: Global, given: &str) -> Result<Text, OutOfMemory> {
    let (fault, line) = front_and_rest(given);
    let (name, place) = word_and_rest(fault);
    let words = words_of(alloc, line)?;
    word_line(
        alloc,
        words.as_slice(),
        word_fault(name, number(place) as usize),
    )
}

fn too_large(alloc: Global, given: &str) -> PlanFault
    ensures { IsPlanFault result }
{
    let (size, path) = word_and_rest(given);
    PlanFault::TooLarge {
        path: text_of(alloc, path),
        size: number(size),
    }
}

fn plan_fault(alloc: Global, name: &str, given: &str) -> PlanFault
    ensures { IsPlanFault result }
{
    match name {
        "TooLarge" => too_large(alloc, given),
        "Overlap" => PlanFault::Overlap(text_of(alloc, given)),
        "NoSource" => PlanFault::NoSource(text_of(alloc, given)),
        "IsFolder" => PlanFault::IsFolder(text_of(alloc, given)),
        "NotFolder" => PlanFault::NotFolder(text_of(alloc, given)),
        _ => PlanFault::TooMany,
    }
}

fn of_a_plan(alloc: Global, given: &str) -> Result<Text, OutOfMemory> {
    let (name, given) = word_and_rest(given);
    let fault = plan_fault(alloc, name, given);
    let line = plan_line(alloc, &fault);
    mem::drop(fault);
    line
}

fn walk_fault(name: &str) -> WalkFault
    ensures { IsWalkFault result }
{
    match name {
        "Files" => WalkFault::Files,
        "TooDeep" => WalkFault::TooDeep,
        _ => WalkFault::TooMany,
    }
}

fn out_of_order(alloc: Global, given: &str) -> BadListing
    ensures { IsListingFault result }
{
    let (before, after) = word_and_rest(given);
    BadListing::Order {
        before: text_of(alloc, before),
        after: text_of(alloc, after),
    }
}

fn listing_fault(alloc: Global, name: &str, given: &str) -> BadListing
    ensures { IsListingFault result }
{
    match name {
        "Order" => out_of_order(alloc, given),
        "Outside" => BadListing::Outside(text_of(alloc, given)),
        "NoToken" => BadListing::NoToken,
        "EmptyPages" => BadListing::EmptyPages,
        _ => BadListing::TooMany,
    }
}

fn of_a_listing(alloc: Global, given: &str) -> Result<Text, OutOfMemory> {
    let (name, given) = word_and_rest(given);
    listing_line(alloc, &listing_fault(alloc, name, given))
}

fn of_an_answer(alloc: Global, given: &str) -> Result<Text, OutOfMemory> {
    let cause = cause_of(alloc, given);
    let line = answer_line(alloc, &cause);
    mem::drop(cause);
    line
}

fn bad_setting(alloc: Global, given: &str) -> ProfileFault {
    let (line, name) = word_and_rest(given);
    ProfileFault::BadSetting {
        line: small_number(line),
        name: text_of(alloc, name),
    }
}

/// A line of the config file, or of that of credentials, that is not understood.
fn bad_line(credentials: bool, line: &str) -> ProfileFault {
    ProfileFault::BadLine {
        credentials,
        line: small_number(line),
    }
}

fn profile_fault(alloc: Global, name: &str, given: &str) -> ProfileFault {
    match name {
        "NoProfile" => ProfileFault::NoProfile(text_of(alloc, given)),
        "BadConfig" => bad_line(false, given),
        "BadCredentials" => bad_line(true, given),
        "BadSetting" => bad_setting(alloc, given),
        "NoKeys" => ProfileFault::NoKeys,
        "NoRegion" => ProfileFault::NoRegion,
        _ => ProfileFault::Memory,
    }
}

fn of_settings(alloc: Global, given: &str) -> Result<Text, OutOfMemory> {
    let (name, given) = word_and_rest(given);
    profile_line(alloc, &profile_fault(alloc, name, given))
}

/// The line of a fault.
pub(crate) fn fault_line(alloc: Global, call: &str, given: &str) -> Result<Text, OutOfMemory> {
    match call {
        "words" => of_words(alloc, given),
        "settings" => of_settings(alloc, given),
        "plan" => of_a_plan(alloc, given),
        "walk" => walk_line(alloc, walk_fault(given)),
        "answer" => of_an_answer(alloc, given),
        "listing" => of_a_listing(alloc, given),
        "unread" => Text::of(alloc, unread_line()),
        _ => Text::of(alloc, memory_line()),
    }
}
