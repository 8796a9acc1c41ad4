//! One pass over a file.

ghost use Rattle.std.specs.Prelude.{◌≡◌, ◌≤◌, ◌+◌, OnOk, IfOk, IfErr, Some, None, length, map};
ghost use Rattle.std.specs.Str.Lines.{lines};
ghost use Rattle.aws_profile.specs.Contexts.{section_name};
ghost use Rattle.aws_profile.specs.Sections.{bad_line, has_section, readings};
ghost use Rattle.aws_profile.specs.Slots.{Fills};

use crate::context::{Context, Sought, take_line};
use crate::lines::first_line;
use crate::slots::Slot;

/// Fills the slots with the values of the section that is sought, and answers whether the file has that section.
///
/// The error is the number of the first line that is wrong, counted from 1.
pub(crate) fn read_file<'a>(
    file: &'a [u8],
    sought: &Sought<'_>,
    slots: &mut [Slot<'a>],
) -> Result<bool, u32>
    requires { length file.now ≤ 1048576 }
    ensures right { OnOk result (bad_line file.now ≡ None) }
    ensures has { IfOk result (λ has. has ≡ has_section (section_name sought.now) (lines file.now)) }
    ensures slots { OnOk result (Fills (section_name sought.now) (readings file.now) slots.old slots.new) }
    ensures wrong { IfErr result (λ line. bad_line file.now ≡ Some line) }
{
    let mut context: Context<'a> = Context {
        section: None,
        parent: None,
        inside: false,
        seen: false,
    };
    let mut number = 0;
    let mut rest = file;
    while let Some((text, after)) = first_line(rest) {
        number += 1;
        match take_line(context, text, number, sought, slots) {
            Some(next) => context = next,
            None => return Err(number),
        }
        rest = after;
    }
    Ok(context.seen)
}
