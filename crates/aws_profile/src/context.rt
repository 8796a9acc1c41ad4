//! What stands above a line.

ghost use Rattle.std.specs.Prelude.{◌≡◌, ◌||◌, ℕ, List, true, not, is_some, IfSome, OnSome, option_copied};
ghost use Rattle.std.specs.Str.{bytes_eq};
ghost use Rattle.aws_profile.specs.Lines.{Indented, Section, kind_of};
ghost use Rattle.aws_profile.specs.Sections.{above_next, is_section_line, is_wrong, reading_of, states};
ghost use Rattle.aws_profile.specs.Shown.{assignment_shown};
ghost use Rattle.aws_profile.specs.Slots.{Takes};
ghost use Rattle.aws_profile.specs.Contexts.{above, is_inside, section_name};

use crate::kinds::{Assignment, Kind, assignment_in, kind_of};
use crate::slots::{Place, Slot, keep};

/// The section whose values are looked for, by a name in two parts.
#[derive(Clone, Copy)]
pub struct Sought<'a> {
    pub front: &'static str,
    pub profile: &'a str,
}

impl Sought<'_> {
    fn is(&self, name: &[u8]) -> bool
        ensures { result ≡ bytes_eq name.now (section_name self.now) }
    {
        match name.strip_prefix(self.front.as_bytes()) {
            Some(rest) => rest == self.profile.as_bytes(),
            None => false,
        }
    }
}

/// The section and the setting above a line, where there are such; whether the section is the one that is sought, and
/// whether that one began at all.
#[derive(Clone, Copy)]
pub struct Context<'a> {
    pub section: Option<&'a [u8]>,
    pub parent: Option<&'a [u8]>,
    pub inside: bool,
    pub seen: bool,
}

impl<'a> Context<'a> {
    fn in_section(self, name: &'a [u8], sought: &Sought<'_>) -> Context<'a>
        ensures above { above result ≡ above_next (above self.entry) (Section name.now) }
        ensures inside { result.inside ≡ bytes_eq name.now (section_name sought.now) }
        ensures seen { result.seen ≡ (self.entry.seen || bytes_eq name.now (section_name sought.now)) }
    {
        let inside = sought.is(name);
        Context {
            section: Some(name),
            parent: None,
            inside,
            seen: self.seen || inside,
        }
    }

    fn with_parent(self, name: &'a [u8]) -> Context<'a>
        ensures above { above result ≡ record { section = option_copied self.entry.section; parent = Some name.now } }
        ensures inside { result.inside ≡ self.entry.inside }
        ensures seen { result.seen ≡ self.entry.seen }
    {
        Context {
            section: self.section,
            parent: Some(name),
            inside: self.inside,
            seen: self.seen,
        }
    }
}

/// Takes a setting in, where its section is the one that is sought.
fn take_setting<'a>(
    context: Context<'a>,
    place: Place,
    setting: Assignment<'a>,
    line: u32,
    slots: &mut [Slot<'a>],
)
    ensures { (name : List ℕ) → (section : List ℕ) → context.entry.inside ≡ bytes_eq section name
        → Takes name (states line section place (assignment_shown setting.entry)) slots.old slots.new }
{
    if context.inside {
        keep(slots, place, setting, line);
    }
}

/// Takes an indented line in; answers whether it may stand there.
fn take_indented<'a>(
    context: Context<'a>,
    text: &'a [u8],
    line: u32,
    slots: &mut [Slot<'a>],
) -> bool
    ensures right { result ≡ not (is_wrong (reading_of line (above context.entry) (Indented text.now))) }
    ensures slots { (name : List ℕ) → context.entry.inside ≡ is_inside name (above context.entry).section
        → result ≡ true → Takes name (reading_of line (above context.entry) (Indented text.now)) slots.old slots.new }
{
    if context.section.is_none() {
        return false;
    }
    let Some(parent) = context.parent else {
        return false;
    };
    if parent != b"s3".as_slice() {
        return true;
    }
    let Some(setting) = assignment_in(text) else {
        return false;
    };
    take_setting(context, Place::S3, setting, line, slots);
    true
}

/// Takes a line in, and answers what stands above the next; None where the line is wrong.
pub(crate) fn take_line<'a>(
    context: Context<'a>,
    text: &'a [u8],
    line: u32,
    sought: &Sought<'_>,
    slots: &mut [Slot<'a>],
) -> Option<Context<'a>>
    requires { context.inside ≡ is_inside (section_name sought.now) (above context).section }
    ensures right { is_some result ≡ not (is_wrong (reading_of line (above context.entry) (kind_of text.now))) }
    ensures above { IfSome result (λ next. above next ≡ above_next (above context.entry) (kind_of text.now)) }
    ensures inside { IfSome result (λ next. next.inside ≡ is_inside (section_name sought.now) (above next).section) }
    ensures seen { IfSome result
        (λ next. next.seen ≡ (context.entry.seen || is_section_line (section_name sought.now) (kind_of text.now))) }
    ensures slots { OnSome result (Takes (section_name sought.now)
        (reading_of line (above context.entry) (kind_of text.now)) slots.old slots.new) }
{
    match kind_of(text) {
        Kind::Skipped => Some(context),
        Kind::Section(name) => Some(context.in_section(name, sought)),
        Kind::Setting(setting) => {
            if context.section.is_none() {
                return None;
            }
            take_setting(context, Place::Section, setting, line, slots);
            Some(context.with_parent(setting.name))
        }
        Kind::Indented(text) => take_indented(context, text, line, slots).then_some(context),
        Kind::Bad => None,
    }
}
