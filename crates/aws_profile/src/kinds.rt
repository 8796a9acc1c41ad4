//! Of what kind a line is.

ghost use Rattle.std.specs.Prelude.{◌≡◌, ◌<◌, option_map, length};
ghost use Rattle.std.specs.List.{list_all};
ghost use Rattle.std.specs.Str.{is_utf8};
ghost use Rattle.aws_profile.specs.Lines.{assignment, is_blank, section_line, kind_by, kind_of};
ghost use Rattle.aws_profile.specs.Shown.{assignment_shown, kind_shown};

use crate::texts::{is_blank, split_once, trimmed};

/// A setting: `name = value`.
#[derive(Clone, Copy)]
pub struct Assignment<'a> {
    pub name: &'a [u8],
    pub value: &'a [u8],
}

#[derive(Clone, Copy)]
pub enum Kind<'a> {
    /// A blank line or a comment.
    Skipped,
    /// The line that begins the section of this name.
    Section(&'a [u8]),
    Setting(Assignment<'a>),
    /// A line that begins with a space or a tab, whole.
    Indented(&'a [u8]),
    Bad,
}

/// The name and the value that the first `=` parts.
pub(crate) fn assignment_in(text: &[u8]) -> Option<Assignment<'_>>
    ensures { option_map assignment_shown result ≡ assignment text.now }
{
    let (name, value) = split_once(text, b'=')?;
    let name = trimmed(name);
    if name.is_empty() {
        return None;
    }
    let value = trimmed(value);
    Some(Assignment { name, value })
}

/// The kind of a line by what follows its `[`.
fn section_line(text: &[u8]) -> Kind<'_>
    ensures { kind_shown result ≡ section_line text.now }
{
    match split_once(text, b']') {
        Some((name, rest)) if !name.is_empty() && rest.is_empty() => Kind::Section(name),
        _ => Kind::Bad,
    }
}

fn is_text(line: &[u8]) -> bool
    ensures { result ≡ is_utf8 line.now }
{
    str::from_utf8(line).is_ok()
}

fn all_blank(line: &[u8]) -> bool
    ensures { result ≡ list_all is_blank line.now }
{
    line.iter().all(|byte| is_blank(*byte))
}

/// The kind of a line that is text.
fn kind_by(first: u8, line: &[u8]) -> Kind<'_>
    requires { 0 < length line.now }
    ensures { kind_shown result ≡ kind_by first line.now }
{
    match first {
        b'#' | b';' => Kind::Skipped,
        b'[' => section_line(&line[1..]),
        b' ' | b'\t' => Kind::Indented(line),
        _ => match assignment_in(line) {
            Some(assigned) => Kind::Setting(assigned),
            None => Kind::Bad,
        },
    }
}

pub(crate) fn kind_of(line: &[u8]) -> Kind<'_>
    ensures { kind_shown result ≡ kind_of line.now }
{
    if !is_text(line) {
        return Kind::Bad;
    }
    if all_blank(line) {
        return Kind::Skipped;
    }
    kind_by(line[0], line)
}
