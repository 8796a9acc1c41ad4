//! Commands as text.

use path_filters::Filters;
use s3_model::{Endpoint, Place, Text, Times};
use s3_words::{Command, Verb};
use std::alloc::AllocError;

/// The names that filters are asked about.
const NAMES: [&str; 3] = ["a.txt", "b.log", "d/a.txt"];

fn verb_name(verb: Verb) -> &'static str {
    match verb {
        Verb::Cp => "cp",
        Verb::Mv => "mv",
        Verb::Sync => "sync",
        Verb::Rm => "rm",
        Verb::Ls => "ls",
        Verb::Presign => "presign",
    }
}

fn push_place(out: &mut String, place: &Option<Place>) -> Result<(), AllocError> {
    match place {
        Some(Place::Object { bucket, key }) => {
            write!(out, " s3:{}:{}", bucket.as_str(), key.as_str())
        }
        Some(Place::File { path }) => write!(out, " {}", path.as_str()),
        None => out.push_str(" -"),
    }
}

fn push_endpoint(out: &mut String, endpoint: &Endpoint) -> Result<(), AllocError> {
    write!(
        out,
        " at {},{},{}",
        endpoint.written.as_str(),
        endpoint.host.as_str(),
        endpoint.port
    )
}

pub(crate) fn push_flag(out: &mut String, name: &str, given: bool) -> Result<(), AllocError> {
    if given {
        write!(out, " {name}")
    } else {
        Ok(())
    }
}

pub(crate) fn push_text(
    out: &mut String,
    name: &str,
    text: &Option<Text>,
) -> Result<(), AllocError> {
    match text {
        Some(text) => write!(out, " {name} {}", text.as_str()),
        None => Ok(()),
    }
}

/// Adds the flags that were given.
fn push_flags(out: &mut String, command: &Command) -> Result<(), AllocError> {
    let flags = [
        ("recursive", command.recursive),
        ("size-only", matches!(command.times, Times::SizeOnly)),
        ("exact", matches!(command.times, Times::Exact)),
        ("delete", command.remove_extra),
        ("dryrun", command.mode.dryrun),
        ("quiet", command.mode.quiet),
        ("errors", command.mode.only_errors),
    ];
    for (name, given) in flags {
        push_flag(out, name, given)?;
    }
    Ok(())
}

fn keeps_all(filters: &Filters) -> bool {
    for name in NAMES {
        if !filters.keeps(name) {
            return false;
        }
    }
    true
}

/// Adds which of the names the filters keep, where they do not keep all.
pub(crate) fn push_kept(out: &mut String, filters: &Filters) -> Result<(), AllocError> {
    if keeps_all(filters) {
        return Ok(());
    }
    out.push_str(" keeps")?;
    for name in NAMES {
        push_flag(out, name, filters.keeps(name))?;
    }
    Ok(())
}

fn push_values(out: &mut String, command: &Command) -> Result<(), AllocError> {
    push_text(out, "type", &command.content)?;
    push_flag(out, "no-guess", !command.guess)?;
    if command.expires != 3600 {
        write!(out, " expires {}", command.expires)?;
    }
    push_kept(out, &command.filters)
}

fn push_profile(out: &mut String, command: &Command) -> Result<(), AllocError> {
    push_text(out, "region", &command.region)?;
    push_text(out, "profile", &command.profile)
}

pub(crate) fn push_command(out: &mut String, command: &Command) -> Result<(), AllocError> {
    out.push_str(verb_name(command.verb))?;
    push_place(out, &command.from)?;
    push_place(out, &command.to)?;
    push_endpoint(out, &command.endpoint)?;
    push_profile(out, command)?;
    push_flags(out, command)?;
    push_values(out, command)
}
