//! What each word behind the command is.

ghost use Rattle.std.specs.Prelude.{◌≡◌, IfSome, IfNone, is_some};
ghost use Rattle.std.specs.List.{after_first, before_first, list_any};
ghost use Rattle.s3_words.specs.Options.{kind_of, option_named, takes_value};
ghost use Rattle.s3_words.specs.Roles.{behind_option, is_dashed, is_equals, name_in, next, option_role, role_of};
ghost use Rattle.s3_words.specs.Shown.{shown};
ghost use Rattle.s3_words.specs.declared.roles.Expected.TheVariants.{Anything};

use crate::options::OptionName;

/// An option, the value of one, or a path.
#[derive(Clone, Copy)]
pub enum Role<'a> {
    /// The word `--`, behind which every word is a path.
    Separator,
    Path(&'a str),
    /// An option that is not in the table.
    Unknown,
    /// An option alone.
    Named(OptionName),
    /// An option, `=` and a value.
    Assigned(OptionName, &'a str),
    /// The value of the option in front of it.
    Value(OptionName, &'a str),
}

/// What the words in front say of the next.
#[derive(Clone, Copy)]
pub enum Expected {
    Anything,
    ValueOf(OptionName),
    /// It stands behind `--`.
    Paths,
}

/// What stands in front of the first `=`, and what follows it.
fn split_at_equals(word: &str) -> Option<(&str, &str)>
    ensures name { IfSome result (λ parts. parts.0.now ≡ name_in word.now) }
    ensures value { IfSome result (λ parts. parts.1.now ≡ after_first is_equals word.now) }
    ensures assigned { is_some result ≡ list_any is_equals word.now }
    ensures alone { IfNone result (name_in word.now ≡ word.now) }
{
    word.split_once('=')
}

fn option_role(word: &str) -> Role<'_>
    ensures { shown result ≡ option_role (option_named (name_in word.now)) word.now }
{
    match split_at_equals(word) {
        Some((name, text)) => match OptionName::named(name) {
            Some(option) => Role::Assigned(option, text),
            None => Role::Unknown,
        },
        None => match OptionName::named(word) {
            Some(option) => Role::Named(option),
            None => Role::Unknown,
        },
    }
}

fn is_dashed(word: &str) -> bool
    ensures { result ≡ is_dashed word.now }
{
    word.starts_with("-") && word != "-"
}

fn role_of_any(word: &str) -> Role<'_>
    ensures { shown result ≡ role_of Anything word.now }
{
    if word == "--" {
        Role::Separator
    } else if is_dashed(word) {
        option_role(word)
    } else {
        Role::Path(word)
    }
}

fn behind_option(option: OptionName) -> Expected
    ensures { result ≡ behind_option (takes_value (kind_of option)) option }
{
    if option.kind().takes_value() {
        Expected::ValueOf(option)
    } else {
        Expected::Anything
    }
}

impl Expected {
    /// What a word is.
    pub(crate) fn role_of<'a>(self, word: &'a str) -> Role<'a>
        ensures { shown result ≡ role_of self word.now }
    {
        match self {
            Expected::Anything => role_of_any(word),
            Expected::ValueOf(option) => Role::Value(option, word),
            Expected::Paths => Role::Path(word),
        }
    }

    /// What that word says of the next.
    pub(crate) fn next(self, role: Role<'_>) -> Expected
        ensures { result ≡ next self (shown role.entry) }
    {
        match (self, role) {
            (Expected::Paths, _) | (_, Role::Separator) => Expected::Paths,
            (_, Role::Named(option)) => behind_option(option),
            _ => Expected::Anything,
        }
    }
}
