//! Errands, taken from commands.

ghost use Rattle.std.specs.Prelude.{◌≡◌, true, IfSome};
ghost use Rattle.command_errands.specs.Errands.{TakesPlaces};
ghost use Rattle.s3_words.specs.Options.{changes};

use crate::commands::shown::push_command;
use crate::commands::words_of;
use crate::errands::shown::push_taken;
use crate::lines::word_and_rest;
use command_errands::take_errand;
use s3_outside::S3_LIMITS;
use s3_words::{Command, Verb, read_words};
use std::alloc::{AllocError, Global};
use std::mem;

fn is_change(verb: Verb) -> bool
    ensures { result ≡ changes verb }
{
    matches!(verb, Verb::Cp | Verb::Mv | Verb::Sync | Verb::Rm)
}

/// The command of these words, where it transfers or removes something.
fn change_of(alloc: Global, words: &[String]) -> Option<Command>
    ensures { IfSome result (λ command. TakesPlaces command.verb command.from command.to) }
{
    match read_words(alloc, words) {
        Ok(command) if is_change(command.verb) => Some(command),
        other => {
            mem::drop(other);
            None
        }
    }
}

/// Adds the errand that is taken from a command, and what is left of the command.
fn push_both(
    alloc: Global,
    out: &mut String,
    mut command: Command,
    into_folder: bool,
) -> Result<(), AllocError>
    requires places { TakesPlaces command.verb command.from command.to }
{
    let taken = take_errand(alloc, &mut command, &S3_LIMITS, into_folder);
    push_taken(out, taken)?;
    out.push_str("; ")?;
    push_command(out, &command)
}

pub(crate) fn push_errand(alloc: Global, out: &mut String, line: &str) -> Result<(), AllocError> {
    let (mark, words) = word_and_rest(line);
    let words = words_of(alloc, words)?;
    match change_of(alloc, &words) {
        Some(command) => push_both(alloc, out, command, mark == "into"),
        None => out.push_str("no errand"),
    }
}
