//! What the words give: flags, values and filters.

ghost use Rattle.std.specs.Prelude.{◌≡◌, IfOk, OnOk, option_map};
ghost use Rattle.std.specs.Option.{option_copied};
ghost use Rattle.s3_words.specs.Commands.{AreFilters, expires_of, mode_of, times_of};
ghost use Rattle.s3_words.specs.Given.{filter_by, filter_in, filters_in, is_given, is_option, value_in, value_of};
ghost use Rattle.s3_words.specs.Shown.{FiltersAfter, IsOneMore, all_shown, given_shown, shown};
ghost use Rattle.s3_words.specs.declared.options.OptionName.TheVariants.{ExactTimestamps, ExpiresIn, SizeOnly};

use crate::options::OptionName;
use crate::roles::Role;
use crate::values::seconds;
use path_filters::{Filters, Pattern};
use s3_model::{Mode, OutOfMemory, Text, Times};
use std::alloc::Global;

/// In seconds.
const DEFAULT_EXPIRY: u64 = 3600;

impl<'a> Role<'a> {
    fn is_option(self, option: OptionName) -> bool
        ensures { result ≡ is_option option (shown self.entry) }
    {
        match self {
            Role::Named(other) | Role::Assigned(other, _) => option == other,
            _ => false,
        }
    }

    fn value_of(self, option: OptionName) -> Option<&'a str>
        ensures { option_copied result ≡ value_in option (shown self.entry) }
    {
        match self {
            Role::Assigned(other, text) | Role::Value(other, text) => {
                (option == other).then_some(text)
            }
            _ => None,
        }
    }
}

/// Whether the option stands among these words.
pub(crate) fn is_given(roles: &[Role<'_>], option: OptionName) -> bool
    ensures { result ≡ is_given option (all_shown roles.now) }
{
    for role in roles {
        if role.is_option(option) {
            return true;
        }
    }
    false
}

/// The value of an option.
pub(crate) fn value_of<'a>(roles: &[Role<'a>], option: OptionName) -> Option<&'a str>
    ensures { option_copied result ≡ value_of option (all_shown roles.now) }
{
    let mut value = None;
    for role in roles {
        value = role.value_of(option).or(value);
    }
    value
}

/// A copy of the value of an option.
pub(crate) fn copy_of(
    alloc: Global,
    roles: &[Role<'_>],
    option: OptionName,
) -> Result<Option<Text>, OutOfMemory>
    ensures { IfOk result (λ copy. copy ≡ value_of option (all_shown roles.now)) }
{
    match value_of(roles, option) {
        Some(text) => Ok(Some(Text::of(alloc, text)?)),
        None => Ok(None),
    }
}

pub(crate) fn times_of(roles: &[Role<'_>]) -> Times
    ensures { result ≡ times_of (is_given SizeOnly (all_shown roles.now))
        (is_given ExactTimestamps (all_shown roles.now)) }
{
    if is_given(roles, OptionName::SizeOnly) {
        Times::SizeOnly
    } else if is_given(roles, OptionName::ExactTimestamps) {
        Times::Exact
    } else {
        Times::Usual
    }
}

pub(crate) fn mode_of(roles: &[Role<'_>]) -> Mode
    ensures { result ≡ mode_of (all_shown roles.now) }
{
    Mode {
        dryrun: is_given(roles, OptionName::Dryrun),
        quiet: is_given(roles, OptionName::Quiet),
        only_errors: is_given(roles, OptionName::OnlyShowErrors),
    }
}

pub(crate) fn expires_of(roles: &[Role<'_>]) -> u64
    ensures { result ≡ expires_of (value_of ExpiresIn (all_shown roles.now)) }
{
    match value_of(roles, OptionName::ExpiresIn) {
        Some(text) => seconds(text).unwrap_or(DEFAULT_EXPIRY),
        None => DEFAULT_EXPIRY,
    }
}

/// A pattern, and whether the paths that it matches are kept.
#[derive(Clone, Copy)]
pub struct Given<'a> {
    pub keep: bool,
    pub pattern: &'a str,
}

fn filter_by(option: OptionName, pattern: &str) -> Option<Given<'_>>
    ensures { option_map given_shown result ≡ filter_by option pattern.now }
{
    match option {
        OptionName::Exclude => Some(Given {
            keep: false,
            pattern,
        }),
        OptionName::Include => Some(Given {
            keep: true,
            pattern,
        }),
        _ => None,
    }
}

fn filter_in<'a>(role: Role<'a>) -> Option<Given<'a>>
    ensures { option_map given_shown result ≡ filter_in (shown role.entry) }
{
    match role {
        Role::Assigned(option, text) | Role::Value(option, text) => filter_by(option, text),
        _ => None,
    }
}

/// Adds a filter at the end.
fn push_filter(alloc: Global, filters: &mut Filters, given: Given<'_>) -> Result<(), OutOfMemory>
    ensures { OnOk result (IsOneMore (given_shown given.entry) filters.old filters.new) }
{
    let pattern = Pattern::read(alloc, given.pattern)?;
    filters.push(given.keep, pattern)
}

/// Adds the filter that a word gives, where it gives one.
fn push_given(alloc: Global, filters: &mut Filters, role: Role<'_>) -> Result<(), OutOfMemory>
    ensures { OnOk result (FiltersAfter (filter_in (shown role.entry)) filters.old filters.new) }
{
    match filter_in(role) {
        Some(given) => push_filter(alloc, filters, given),
        None => Ok(()),
    }
}

/// The filters in the order in which they are given.
pub(crate) fn filters_of(alloc: Global, roles: &[Role<'_>]) -> Result<Filters, OutOfMemory>
    ensures { IfOk result (AreFilters (filters_in (all_shown roles.now))) }
{
    let mut filters = Filters::make(alloc);
    for role in roles {
        push_given(alloc, &mut filters, *role)?;
    }
    Ok(filters)
}
