//! Commands.

ghost use Rattle.std.specs.Prelude.{◌≡◌};
ghost use Rattle.s3_words.specs.Options.{changes, is_copy, is_listing, is_presign, recurses, transfers, verb_named};

use path_filters::Filters;
use s3_model::{Endpoint, Mode, Place, Text, Times};

#[derive(Clone, Copy)]
pub enum Verb {
    Cp,
    Mv,
    Sync,
    Rm,
    Ls,
    Presign,
}

/// What a command line asks for.
#[derive(Drop)]
pub struct Command {
    pub verb: Verb,
    /// The first path, as it is written.
    pub from: Option<Place>,
    /// The second path, as it is written.
    pub to: Option<Place>,
    pub endpoint: Endpoint,
    pub region: Option<Text>,
    pub profile: Option<Text>,
    pub filters: Filters,
    /// `--recursive` was given.
    pub recursive: bool,
    pub times: Times,
    /// What the source does not have is removed from the destination.
    pub remove_extra: bool,
    pub mode: Mode,
    /// The content type of uploads.
    pub content: Option<Text>,
    /// Without a content type of the command, one is looked up by the source's name.
    pub guess: bool,
    /// How long a presigned URL lasts, in seconds.
    pub expires: u64,
}

impl Verb {
    pub(crate) fn named(name: &str) -> Option<Verb>
        ensures { result ≡ verb_named name.now }
    {
        match name {
            "cp" => Some(Verb::Cp),
            "mv" => Some(Verb::Mv),
            "sync" => Some(Verb::Sync),
            "rm" => Some(Verb::Rm),
            "ls" => Some(Verb::Ls),
            "presign" => Some(Verb::Presign),
            _ => None,
        }
    }

    pub(crate) fn transfers(self) -> bool
        ensures { result ≡ transfers self }
    {
        matches!(self, Verb::Cp | Verb::Mv | Verb::Sync)
    }

    pub(crate) fn changes(self) -> bool
        ensures { result ≡ changes self }
    {
        self.transfers() || matches!(self, Verb::Rm)
    }

    pub(crate) fn recurses(self) -> bool
        ensures { result ≡ recurses self }
    {
        matches!(self, Verb::Cp | Verb::Mv | Verb::Rm | Verb::Ls)
    }

    /// Whether the command is `cp`.
    pub fn is_copy(self) -> bool
        ensures { result ≡ is_copy self }
    {
        matches!(self, Verb::Cp)
    }

    /// Whether the command is `ls`.
    pub fn is_listing(self) -> bool
        ensures { result ≡ is_listing self }
    {
        matches!(self, Verb::Ls)
    }

    /// Whether the command is `presign`.
    pub fn is_presign(self) -> bool
        ensures { result ≡ is_presign self }
    {
        matches!(self, Verb::Presign)
    }
}
