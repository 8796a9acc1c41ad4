//! The options of the command line.

ghost use Rattle.std.specs.Prelude.{◌≡◌};
ghost use Rattle.s3_words.specs.Options.{
  common_options,
  is_single,
  kind_of,
  named_in,
  option_named,
  special_options,
  takes_option,
  takes_value,
};

use crate::commands::Verb;

#[derive(Clone, Copy)]
pub enum OptionName {
    EndpointUrl,
    Region,
    Profile,
    Recursive,
    Exclude,
    Include,
    Dryrun,
    Quiet,
    OnlyShowErrors,
    SizeOnly,
    ExactTimestamps,
    Delete,
    ContentType,
    NoGuessMimeType,
    NoProgress,
    ExpiresIn,
}

/// What an option's value has to be.
#[derive(Clone, Copy)]
pub enum ValueKind {
    /// The option is a flag.
    NoValue,
    Url,
    RegionName,
    ProfileName,
    Pattern,
    MediaType,
    Seconds,
}

impl ValueKind {
    pub(crate) fn takes_value(self) -> bool
        ensures { result ≡ takes_value self }
    {
        !matches!(self, ValueKind::NoValue)
    }

    /// Whether an option with such a value may be given only once.
    pub(crate) fn is_single(self) -> bool
        ensures { result ≡ is_single self }
    {
        !matches!(self, ValueKind::NoValue | ValueKind::Pattern)
    }
}

/// An option that `rm` takes.
fn common_option(name: &str) -> Option<OptionName>
    ensures { result ≡ named_in common_options name.now }
{
    match name {
        "--endpoint-url" => Some(OptionName::EndpointUrl),
        "--region" => Some(OptionName::Region),
        "--profile" => Some(OptionName::Profile),
        "--recursive" => Some(OptionName::Recursive),
        "--exclude" => Some(OptionName::Exclude),
        "--include" => Some(OptionName::Include),
        "--dryrun" => Some(OptionName::Dryrun),
        "--quiet" => Some(OptionName::Quiet),
        "--only-show-errors" => Some(OptionName::OnlyShowErrors),
        _ => None,
    }
}

/// An option that `rm` does not take.
fn special_option(name: &str) -> Option<OptionName>
    ensures { result ≡ named_in special_options name.now }
{
    match name {
        "--size-only" => Some(OptionName::SizeOnly),
        "--exact-timestamps" => Some(OptionName::ExactTimestamps),
        "--delete" => Some(OptionName::Delete),
        "--content-type" => Some(OptionName::ContentType),
        "--no-guess-mime-type" => Some(OptionName::NoGuessMimeType),
        "--no-progress" => Some(OptionName::NoProgress),
        "--expires-in" => Some(OptionName::ExpiresIn),
        _ => None,
    }
}

impl OptionName {
    pub(crate) fn named(name: &str) -> Option<OptionName>
        ensures { result ≡ option_named name.now }
    {
        match common_option(name) {
            Some(option) => Some(option),
            None => special_option(name),
        }
    }

    pub(crate) fn kind(self) -> ValueKind
        ensures { result ≡ kind_of self }
    {
        match self {
            OptionName::EndpointUrl => ValueKind::Url,
            OptionName::Region => ValueKind::RegionName,
            OptionName::Profile => ValueKind::ProfileName,
            OptionName::Exclude | OptionName::Include => ValueKind::Pattern,
            OptionName::ContentType => ValueKind::MediaType,
            OptionName::ExpiresIn => ValueKind::Seconds,
            OptionName::Recursive
            | OptionName::Dryrun
            | OptionName::Quiet
            | OptionName::OnlyShowErrors
            | OptionName::SizeOnly
            | OptionName::ExactTimestamps
            | OptionName::Delete
            | OptionName::NoGuessMimeType
            | OptionName::NoProgress => ValueKind::NoValue,
        }
    }

    pub(crate) fn is_taken_by(self, verb: Verb) -> bool
        ensures { result ≡ takes_option verb self }
    {
        match self {
            OptionName::EndpointUrl | OptionName::Region | OptionName::Profile => true,
            OptionName::Recursive => verb.recurses(),
            OptionName::Exclude
            | OptionName::Include
            | OptionName::Dryrun
            | OptionName::Quiet
            | OptionName::OnlyShowErrors => verb.changes(),
            OptionName::SizeOnly | OptionName::ExactTimestamps | OptionName::Delete => {
                matches!(verb, Verb::Sync)
            }
            OptionName::ContentType | OptionName::NoGuessMimeType | OptionName::NoProgress => {
                verb.transfers()
            }
            OptionName::ExpiresIn => matches!(verb, Verb::Presign),
        }
    }
}
