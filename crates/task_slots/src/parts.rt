//! The parts that jobs take, and that are free after them.

ghost use Rattle.std.specs.Prelude.{◌≡◌, ◌≤◌, true, false, Some, None, is_some};
ghost use Rattle.held_parts.specs.Held.{IsSamePool, held_at};
ghost use Rattle.job_terms.specs.Buffers.{holds_buffer};
ghost use Rattle.move_laws.specs.Calls.{IsPartFor, bytes_held};
ghost use Rattle.move_laws.specs.Freed.{IsAway};
ghost use Rattle.part_tables.specs.Finding.{FindsPart};
ghost use Rattle.part_tables.specs.Tables.{IsPutWhere};

use held_parts::HeldParts;
use s3_model::{Op, Part};

/// Whether a job takes a part.
fn takes_part(op: Op) -> bool
    ensures { result ≡ holds_buffer op }
{
    matches!(op, Op::Put | Op::Part | Op::Get)
}

/// The part that the piece holds, or an empty one.
fn part_of(parts: &mut HeldParts, task: u32, number: u32) -> Part
    requires { FindsPart false parts.old.pool.count parts.old.slots task number }
    ensures held { IsPutWhere true task number (Some None) parts.old.slots parts.new.slots }
    ensures pool { IsSamePool parts.old.pool parts.new.pool }
    ensures room { parts.old.pool.room ≤ result.bytes.room }
    ensures bytes { result.bytes.bytes ≡ bytes_held (held_at parts.old.slots task number) }
{
    if parts.part(task, number).is_some() {
        return parts.take(task, number);
    }
    let Some(part) = parts.lend(task, number) else {
        unreachable!()
    };
    part
}

/// The part that a job takes which was not given before.
pub fn part_for(parts: &mut HeldParts, task: u32, op: Op, number: u32) -> Option<Part>
    requires { holds_buffer op ≡ true → FindsPart false parts.old.pool.count parts.old.slots task number }
    ensures part { IsPartFor op parts.old.pool.room (held_at parts.old.slots task number) result }
    ensures held { IsPutWhere (holds_buffer op) task number (Some None) parts.old.slots parts.new.slots }
    ensures pool { IsSamePool parts.old.pool parts.new.pool }
{
    if takes_part(op) {
        Some(part_of(parts, task, number))
    } else {
        None
    }
}

/// The part that comes back to a piece is free from now on, if there is one.
pub fn free_part(parts: &mut HeldParts, task: u32, number: u32, part: Option<Part>)
    requires { IsAway parts.old.pool.room (held_at parts.old.slots task number) part }
    ensures held { IsPutWhere (is_some part) task number None parts.old.slots parts.new.slots }
    ensures pool { IsSamePool parts.old.pool parts.new.pool }
{
    if let Some(part) = part {
        parts.give_back(task, number, part);
    }
}
