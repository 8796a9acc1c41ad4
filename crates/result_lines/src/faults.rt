//! The lines of runs that ended before their tasks, or in planning. All of them go to standard error.

ghost use Rattle.std.specs.Prelude.{◌≡◌, ◌++◌, IfOk, [], codes, decimal, map, string_bytes};
ghost use Rattle.result_lines.specs.Causes.{IsShown, cause_text};
ghost use Rattle.result_lines.specs.Faults.{
  IsListingFault,
  IsPlanFault,
  IsWalkFault,
  fatal_line,
  file_name,
  listing_text,
  memory_line,
  plan_text,
  profile_text,
  program_line,
  unread_line,
  walk_text,
  word_at,
  word_text,
};

use crate::causes::cause_text;
use crate::lines::{four_in_line, number, three_in_line, two_in_line};
use s3_model::{
    BadListing, Cause, OutOfMemory, PlanFault, ProfileFault, Text, WalkFault, WordFault,
};
use std::alloc::Global;
use std::mem;

const FATAL: &str = "fatal error: ";

const PROGRAM: &str = "s3: ";

fn path_line(alloc: Global, path: &Text, back: &str) -> Result<Text, OutOfMemory>
    ensures { IfOk result (λ text. text ≡ fatal_line (codes "The path " ++ path.now ++ back.now)) }
{
    three_in_line(alloc, FATAL, "The path ", path.as_str(), back)
}

fn too_large_line(alloc: Global, path: &Text, size: u64) -> Result<Text, OutOfMemory>
    ensures { IfOk result (λ text. text ≡ fatal_line (path.now ++ codes " has " ++ decimal size
        ++ codes " bytes and is too large")) }
{
    let size = number(alloc, size)?;
    let back = " bytes and is too large";
    let path = path.as_str();
    let line = four_in_line(alloc, FATAL, path, " has ", size.as_str(), back);
    mem::drop(size);
    line
}

/// The line of a fault in a plan. Want of memory has none.
pub fn plan_line(alloc: Global, fault: &PlanFault) -> Result<Text, OutOfMemory>
    requires { IsPlanFault fault.now }
    ensures { IfOk result (λ text. text ≡ fatal_line (plan_text fault.now)) }
{
    match fault {
        PlanFault::Overlap(key) => {
            let back = " is both read and written by this command";
            three_in_line(alloc, FATAL, "The key ", key.as_str(), back)
        }
        PlanFault::TooMany => Text::of(alloc, "fatal error: More than 1000000 names\n"),
        PlanFault::TooLarge { path, size } => too_large_line(alloc, path, *size),
        PlanFault::Memory => unreachable!(),
        PlanFault::NoSource(path) => path_line(alloc, path, " does not exist"),
        PlanFault::IsFolder(path) => path_line(alloc, path, " is a folder"),
        PlanFault::NotFolder(path) => path_line(alloc, path, " is not a folder"),
    }
}

/// The line of a tree that was not read. Want of memory has none.
pub fn walk_line(alloc: Global, fault: WalkFault) -> Result<Text, OutOfMemory>
    requires { IsWalkFault fault }
    ensures { IfOk result (λ text. text ≡ fatal_line (walk_text fault)) }
{
    match fault {
        WalkFault::Files => Text::of(alloc, "fatal error: The files could not be read\n"),
        WalkFault::TooDeep => Text::of(alloc, "fatal error: The folders are too deep\n"),
        WalkFault::TooMany => Text::of(alloc, "fatal error: More than 1000000 names\n"),
        WalkFault::Memory => unreachable!(),
    }
}

/// The line of a listing that was refused. Want of memory has none.
pub fn listing_line(alloc: Global, fault: &BadListing) -> Result<Text, OutOfMemory>
    requires { IsListingFault fault.now }
    ensures { IfOk result (λ text. text ≡ fatal_line (listing_text fault.now)) }
{
    match fault {
        BadListing::Order { before, after } => {
            let front = "The listing is out of order: ";
            let (before, after) = (before.as_str(), after.as_str());
            four_in_line(alloc, FATAL, front, after, " after ", before)
        }
        BadListing::NoToken => Text::of(alloc, "fatal error: The listing has no token\n"),
        BadListing::EmptyPages => Text::of(
            alloc,
            "fatal error: The listing has too many empty pages\n",
        ),
        BadListing::TooMany => Text::of(alloc, "fatal error: More than 1000000 names\n"),
        BadListing::Memory => unreachable!(),
        BadListing::Outside(key) => {
            let back = " outside its prefix";
            three_in_line(alloc, FATAL, "The listing has ", key.as_str(), back)
        }
    }
}

/// The line of a request that ended the planning.
pub fn answer_line(alloc: Global, cause: &Cause) -> Result<Text, OutOfMemory>
    requires { IsShown cause.now }
    ensures { IfOk result (λ text. text ≡ fatal_line (cause_text [] cause.now)) }
{
    let cause = cause_text(alloc, cause, "")?;
    let line = Text::joined(alloc, &["fatal error: ", cause.as_str(), "\n"]);
    mem::drop(cause);
    line
}

fn word_at(words: &[String], place: usize) -> &str
    ensures { result.now ≡ word_at (map string_bytes words.now) place }
{
    match words.get(place) {
        Some(word) => word.as_str(),
        None => "",
    }
}

fn counts_line(alloc: Global, found: &str, wanted: usize) -> Result<Text, OutOfMemory>
    ensures { IfOk result (λ text. text ≡ program_line (found.now ++ codes " paths given, " ++ decimal wanted
        ++ codes " wanted")) }
{
    let wanted = number(alloc, wanted as u64)?;
    let line = four_in_line(
        alloc,
        PROGRAM,
        found,
        " paths given, ",
        wanted.as_str(),
        " wanted",
    );
    mem::drop(wanted);
    line
}

fn count_text(alloc: Global, found: usize, wanted: usize) -> Result<Text, OutOfMemory>
    ensures { IfOk result (λ text. text ≡ program_line (word_text [] (WordFault.PathCount found wanted))) }
{
    let found = number(alloc, found as u64)?;
    let line = counts_line(alloc, found.as_str(), wanted);
    mem::drop(found);
    line
}

fn show_word(
    alloc: Global,
    words: &[String],
    front: &str,
    place: usize,
) -> Result<Text, OutOfMemory>
    ensures { IfOk result (λ text. text ≡ program_line (front.now ++ word_at (map string_bytes words.now) place)) }
{
    two_in_line(alloc, PROGRAM, front, word_at(words, place))
}

/// The line of words that were refused; it shows the word at the index, counted from 0.
pub fn word_line(alloc: Global, words: &[String], fault: WordFault) -> Result<Text, OutOfMemory>
    ensures { IfOk result (λ text. text ≡ program_line (word_text (map string_bytes words.now) fault)) }
{
    match fault {
        WordFault::NoCommand => Text::of(alloc, "s3: no command\n"),
        WordFault::UnknownCommand(place) => show_word(alloc, words, "unknown command ", place),
        WordFault::UnknownOption(place) => show_word(alloc, words, "unknown option ", place),
        WordFault::NoValue(place) => show_word(alloc, words, "no value for ", place),
        WordFault::BadValue(place) => show_word(alloc, words, "bad value ", place),
        WordFault::PathCount { found, wanted } => count_text(alloc, found, wanted),
        WordFault::Pair => Text::of(alloc, "s3: the paths do not fit the command\n"),
        WordFault::Twice(place) => {
            two_in_line(alloc, PROGRAM, word_at(words, place), " is given twice")
        }
        WordFault::Endpoint(place, _) => show_word(alloc, words, "bad endpoint ", place),
        WordFault::NoEndpoint => Text::of(alloc, "s3: no endpoint\n"),
        WordFault::Memory => Text::of(alloc, "s3: out of memory\n"),
    }
}

fn file_name(credentials: bool) -> &'static str
    ensures { result.now ≡ file_name credentials }
{
    if credentials {
        "credentials file"
    } else {
        "config file"
    }
}

fn bad_line_text(alloc: Global, credentials: bool, line: u32) -> Result<Text, OutOfMemory>
    ensures { IfOk result (λ text. text ≡ program_line (codes "line " ++ decimal line ++ codes " of the "
        ++ file_name credentials ++ codes " is not understood")) }
{
    let line = number(alloc, u64::from(line))?;
    let (place, file) = (line.as_str(), file_name(credentials));
    let back = " is not understood\n";
    let text = Text::joined(alloc, &["s3: line ", place, " of the ", file, back]);
    mem::drop(line);
    text
}

fn bad_value_text(alloc: Global, name: &str, line: u32) -> Result<Text, OutOfMemory>
    ensures { IfOk result (λ text. text ≡ program_line (codes "bad value of " ++ name.now ++ codes " in line "
        ++ decimal line)) }
{
    let line = number(alloc, u64::from(line))?;
    let front = "bad value of ";
    let text = four_in_line(alloc, PROGRAM, front, name, " in line ", line.as_str());
    mem::drop(line);
    text
}

/// The line of settings that were refused; lines of files are counted from 1.
pub fn profile_line(alloc: Global, fault: &ProfileFault) -> Result<Text, OutOfMemory>
    ensures { IfOk result (λ text. text ≡ program_line (profile_text fault.now)) }
{
    match fault {
        ProfileFault::NoKeys => Text::of(alloc, "s3: no credentials found\n"),
        ProfileFault::NoRegion => Text::of(alloc, "s3: no region found\n"),
        ProfileFault::NoProfile(name) => {
            three_in_line(alloc, PROGRAM, "profile ", name.as_str(), " not found")
        }
        ProfileFault::BadLine { credentials, line } => bad_line_text(alloc, *credentials, *line),
        ProfileFault::BadSetting { line, name } => bad_value_text(alloc, name.as_str(), *line),
        ProfileFault::Memory => Text::of(alloc, "s3: out of memory\n"),
    }
}

/// The line of settings files of which one could not be read.
pub fn unread_line() -> &'static str
    ensures { result.now ≡ unread_line }
{
    "s3: a settings file could not be read\n"
}

/// The line of a run for which memory ran out; it takes none.
pub fn memory_line() -> &'static str
    ensures { result.now ≡ memory_line }
{
    "s3: out of memory\n"
}
