//! The values that are looked for in a section.

ghost use Rattle.std.specs.Prelude.{◌≡◌, ◌&&◌, map, None};
ghost use Rattle.std.specs.Str.{bytes_eq};
ghost use Rattle.aws_profile.specs.Sections.{same_place};
ghost use Rattle.aws_profile.specs.Slots.{put, slot_for};

use crate::kinds::Assignment;

/// Where a setting stands: in the section itself, or indented under `s3`.
#[derive(Clone, Copy)]
pub enum Place {
    Section,
    S3,
}

impl Place {
    pub(crate) fn is(self, other: Place) -> bool
        ensures { result ≡ same_place self other }
    {
        matches!(
            (self, other),
            (Place::Section, Place::Section) | (Place::S3, Place::S3)
        )
    }
}

/// The value of a setting, with the number of its line.
#[derive(Clone, Copy)]
pub struct Found<'a> {
    pub line: u32,
    pub text: &'a [u8],
}

/// A name that is looked for, and the last value that was found for it.
#[derive(Clone, Copy)]
pub struct Slot<'a> {
    pub place: Place,
    pub name: &'static str,
    pub found: Option<Found<'a>>,
}

impl<'a> Slot<'a> {
    pub(crate) fn new(place: Place, name: &'static str) -> Slot<'a>
        ensures { result ≡ slot_for place name.entry }
    {
        Slot {
            place,
            name,
            found: None,
        }
    }

    fn is_for(&self, place: Place, name: &[u8]) -> bool
        ensures { result ≡ (same_place place self.now.place && bytes_eq name.now self.now.name.now) }
    {
        place.is(self.place) && name == self.name.as_bytes()
    }

    /// The slot after a setting, whose value it takes where it is for it.
    fn after(self, place: Place, setting: Assignment<'a>, line: u32) -> Slot<'a>
        ensures { result ≡ put place line setting.entry self.entry }
    {
        if !self.is_for(place, setting.name) {
            return self;
        }
        let text = setting.value;
        Slot {
            place: self.place,
            name: self.name,
            found: Some(Found { line, text }),
        }
    }
}

/// Puts the value of a setting into the slots that are for it.
pub(crate) fn keep<'a>(slots: &mut [Slot<'a>], place: Place, setting: Assignment<'a>, line: u32)
    ensures { slots.new ≡ map (put place line setting.entry) slots.old }
{
    for slot in slots.iter_mut() {
        *slot = slot.after(place, setting, line);
    }
}
