//! What is wrong with words.

ghost use Rattle.std.specs.Prelude.{◌≡◌, ◌≢◌, OnOk, OnErr, IfOk, IfErr, Some, None};
ghost use Rattle.s3_words.specs.Faults.{count_fault, missing_fault, name_fault, option_fault, pair_fault, twice_fault};
ghost use Rattle.s3_words.specs.Shown.{all_shown, shown};

use crate::commands::Verb;
use crate::given::is_given;
use crate::options::OptionName;
use crate::places::{is_pair, is_right_count, wanted};
use crate::roles::Role;
use s3_model::{Place, WordFault};

fn name_fault(verb: Verb, at: usize, option: OptionName) -> Option<WordFault>
    ensures { result ≡ name_fault verb at option }
{
    (!option.is_taken_by(verb)).then_some(WordFault::UnknownOption(at))
}

fn twice_fault(at: usize, before: &[Role<'_>], option: OptionName) -> Option<WordFault>
    ensures { result ≡ twice_fault at (all_shown before.now) option }
{
    let twice = option.kind().is_single() && is_given(before, option);
    twice.then_some(WordFault::Twice(at))
}

fn missing_fault(at: usize, last: bool, option: OptionName) -> Option<WordFault>
    ensures { result ≡ missing_fault at last option }
{
    let missing = option.kind().takes_value() && last;
    missing.then_some(WordFault::NoValue(at))
}

/// What is wrong with an option: its name, then that it stands before, then that its value is missing.
pub(crate) fn option_fault(
    verb: Verb,
    at: usize,
    before: &[Role<'_>],
    last: bool,
    role: Role<'_>,
) -> Option<WordFault>
    ensures { result ≡ option_fault verb at (all_shown before.now) last (shown role.entry) }
{
    match role {
        Role::Unknown => Some(WordFault::UnknownOption(at)),
        Role::Named(option) => name_fault(verb, at, option)
            .or(twice_fault(at, before, option))
            .or(missing_fault(at, last, option)),
        Role::Assigned(option, _) => {
            name_fault(verb, at, option).or(twice_fault(at, before, option))
        }
        _ => None,
    }
}

pub(crate) fn count_fault(verb: Verb, places: &[Place]) -> Option<WordFault>
    ensures { result ≡ count_fault verb places.now }
{
    let found = places.len();
    let wanted = wanted(verb);
    (!is_right_count(verb, found)).then_some(WordFault::PathCount { found, wanted })
}

pub(crate) fn pair_fault(verb: Verb, recursive: bool, places: &[Place]) -> Option<WordFault>
    ensures { result ≡ pair_fault verb recursive places.now }
{
    (!is_pair(verb, recursive, places)).then_some(WordFault::Pair)
}
