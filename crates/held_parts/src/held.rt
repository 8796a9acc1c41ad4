//! The parts that pieces hold.

ghost use Rattle.std.specs.Prelude.{◌≡◌, ◌≢◌, ◌<◌, ◌≤◌, ◌↔◌, ◌+◌, ◌-◌, ◌++◌, ◌^◌, ◌&&◌, ◌==◌, ℕ, [], true, None, Some, IfOk, IfSome, IfNone, OnSome, IsNone, if◌then◌else◌, is_some, get_or, length, replicate, set, map, nat_lt};
ghost use Rattle.std.specs.List.{position};
ghost use Rattle.std.specs.Option.{option_copied};
ghost use Rattle.s3_model.specs.declared.bytes.Part.{Part as OnePart};
ghost use Rattle.held_parts.specs.Held.{
  IsHere,
  IsSamePool,
  IsTable,
  grown,
  held_at,
  here,
  here_at,
  is_here_of,
  is_of,
  is_vacant,
  lent_in,
  part_of,
  stopped,
  stopped_at,
};

use chunk_plan::PartPool;
use s3_model::{OutOfMemory, Part, nones};
use std::alloc::Global;
use std::marker::Model;
use std::mem;

/// A part that a piece of a task holds: the part itself, or none where it is away with the job of the piece.
#[derive(Drop)]
pub struct Held {
    pub task: u32,
    pub number: u32,
    pub part: Option<Part>,
}

/// A fixed number of parts, and which piece holds which of them. A piece holds one at most. Every call looks at as many
/// places as there are parts, whatever the number of tasks and pieces, and takes no memory but `make`.
///
/// Contracts see the pool of the parts, and the places for those that are lent.
#[derive(Drop)]
pub struct HeldParts {
    pool: PartPool,
    slots: Vec<Option<Held>>,
}

impl Model for HeldParts {
    ghost use Rattle.held_parts.specs.Held.{IsTable, SeenParts};

    ghost Value = { SeenParts };

    ghost view = { λ h. record { pool = h.pool; slots = h.slots.items } };

    ghost invariant = { λ h. IsTable h.pool h.slots.items };
}

/// Whether a place is that of the piece.
fn is_of(slot: &Option<Held>, task: u32, number: u32) -> bool
    ensures { result ≡ is_of task number slot.now }
{
    match slot {
        Some(held) => held.task == task && held.number == number,
        None => false,
    }
}

/// The place of a piece.
fn place_of(slots: &[Option<Held>], task: u32, number: u32) -> Option<usize>
    ensures { result ≡ position (is_of task number) slots.now }
{
    slots.iter().position(|slot| is_of(slot, task, number))
}

/// The part that is here.
fn into_part(slot: Option<Held>) -> Part
    requires { IsHere (part_of slot) }
    ensures { part_of slot ≡ Some (Some result) }
{
    let Some(
        Held {
            part: Some(part),
            ..
        },
    ) = slot
    else {
        unreachable!()
    };
    part
}

fn part_in(slot: &Option<Held>) -> Option<&Part>
    ensures { option_copied result ≡ here slot.now }
{
    slot.as_ref()?.part.as_ref()
}

/// Whether a place has a part of that task that is here.
fn is_here_of(slot: &Option<Held>, task: u32) -> bool
    ensures { result ≡ is_here_of task slot.now }
{
    match slot {
        Some(held) => held.task == task && held.part.is_some(),
        None => false,
    }
}

/// The first place that nobody has.
fn vacant(slots: &[Option<Held>]) -> Option<usize>
    ensures { result ≡ position is_vacant slots.now }
{
    slots.iter().position(|slot| slot.is_none())
}

impl HeldParts {
    /// `count` parts with a room of `bytes` bytes each, which nobody holds. It takes all the memory that they need.
    pub fn make(alloc: Global, count: u32, bytes: u64) -> Result<HeldParts, OutOfMemory>
        ensures pool { IfOk result (λ held.
            held.pool ≡ record { count = count; free = count; lent = 0; room = bytes; most = bytes }) }
        ensures slots { IfOk result (λ held. held.slots ≡ replicate count None) }
    {
        let pool = PartPool::make(alloc, count, bytes)?;
        let slots = nones(alloc, count as usize)?;
        Ok(HeldParts { pool, slots })
    }

    /// Whether a part is free.
    pub fn has_free(&self) -> bool
        ensures free { result ≡ nat_lt (lent_in self.now.slots) self.now.pool.count }
        ensures table { IsTable self.now.pool self.now.slots }
    {
        self.pool.free() > 0
    }

    /// An empty part for a job of a piece that holds none; none where all are lent. It is away with that job.
    pub fn lend(&mut self, task: u32, number: u32) -> Option<Part>
        requires { held_at self.old.slots task number ≡ None }
        ensures none { IsNone result ↔ (lent_in self.old.slots ≡ self.old.pool.count) }
        ensures same { IfNone result (self.new ≡ self.old) }
        ensures empty { IfSome result (λ part. part.bytes.bytes ≡ []) }
        ensures room { IfSome result (λ part. self.old.pool.room ≤ part.bytes.room) }
        ensures held { OnSome result ((x y : ℕ) → held_at self.new.slots x y
            ≡ (if (task == x) && (number == y) then Some None else held_at self.old.slots x y)) }
        ensures lent { OnSome result (lent_in self.new.slots ≡ lent_in self.old.slots + 1) }
        ensures pool { OnSome result (IsSamePool self.old.pool self.new.pool) }
    {
        let place = vacant(&self.slots)?;
        let part = self.pool.lend()?;
        self.slots[place] = Some(Held {
            task,
            number,
            part: None,
        });
        Some(part)
    }

    /// The place of a piece that holds a part.
    fn place(&self, task: u32, number: u32) -> usize
        requires { held_at self.now.slots task number ≢ None }
        ensures place { position (is_of task number) self.now.slots ≡ Some result }
        ensures table { IsTable self.now.pool self.now.slots }
    {
        let Some(place) = place_of(&self.slots, task, number) else {
            unreachable!()
        };
        place
    }

    /// What the job of a piece took with it is here from now on.
    pub fn put(&mut self, task: u32, number: u32, part: Part)
        requires away { held_at self.old.slots task number ≡ Some None }
        requires room { self.old.pool.room ≤ part.bytes.room }
        ensures held { (x y : ℕ) → held_at self.new.slots x y
            ≡ (if (task == x) && (number == y) then Some (Some part) else held_at self.old.slots x y) }
        ensures lent { lent_in self.new.slots ≡ lent_in self.old.slots }
        ensures pool { self.new.pool ≡ self.old.pool }
    {
        let place = self.place(task, number);
        let held = Held {
            task,
            number,
            part: Some(part),
        };
        self.slots[place] = Some(held);
    }

    /// The part of a piece that is here. It is away with the piece's job from now on.
    pub fn take(&mut self, task: u32, number: u32) -> Part
        requires { IsHere (held_at self.old.slots task number) }
        ensures part { held_at self.old.slots task number ≡ Some (Some result) }
        ensures room { self.old.pool.room ≤ result.bytes.room }
        ensures held { (x y : ℕ) → held_at self.new.slots x y
            ≡ (if (task == x) && (number == y) then Some None else held_at self.old.slots x y) }
        ensures lent { lent_in self.new.slots ≡ lent_in self.old.slots }
        ensures pool { self.new.pool ≡ self.old.pool }
    {
        let place = self.place(task, number);
        let away = Held {
            task,
            number,
            part: None,
        };
        let before = mem::replace(&mut self.slots[place], Some(away));
        into_part(before)
    }

    /// What the job of a piece took with it is free from now on.
    pub fn give_back(&mut self, task: u32, number: u32, part: Part)
        requires away { held_at self.old.slots task number ≡ Some None }
        requires room { self.old.pool.room ≤ part.bytes.room }
        ensures held { (x y : ℕ) → held_at self.new.slots x y
            ≡ (if (task == x) && (number == y) then None else held_at self.old.slots x y) }
        ensures lent { lent_in self.new.slots + 1 ≡ lent_in self.old.slots }
        ensures pool { IsSamePool self.old.pool self.new.pool }
    {
        let place = self.place(task, number);
        self.slots[place] = None;
        self.pool.give_back(part);
    }

    /// The part of a piece, where it is here.
    pub fn part(&self, task: u32, number: u32) -> Option<&Part>
        ensures { option_copied result ≡ here_at self.now.slots task number }
    {
        let place = place_of(&self.slots, task, number)?;
        part_in(&self.slots[place])
    }

    /// Adds bytes to the part of a piece, which is here.
    pub fn add(&mut self, task: u32, number: u32, bytes: &[u8])
        requires room { IfSome (here_at self.old.slots task number) (λ part.
            length part.bytes.bytes + length bytes.now ≤ part.bytes.room) }
        requires here { IsHere (held_at self.old.slots task number) }
        ensures held { (x y : ℕ) → held_at self.new.slots x y
            ≡ (if (task == x) && (number == y) then grown bytes.now (held_at self.old.slots x y)
            else held_at self.old.slots x y) }
        ensures lent { lent_in self.new.slots ≡ lent_in self.old.slots }
        ensures pool { self.new.pool ≡ self.old.pool }
    {
        let mut part = self.take(task, number);
        part.bytes.add(bytes);
        self.put(task, number, part);
    }

    /// The parts of a task that are here are free from now on.
    pub fn stop(&mut self, task: u32)
        ensures held { (x y : ℕ) → held_at self.new.slots x y ≡ stopped_at task x (held_at self.old.slots x y) }
        ensures lent { lent_in self.new.slots ≡ lent_in (map (stopped task) self.old.slots) }
        ensures pool { IsSamePool self.old.pool self.new.pool }
    {
        for place in 0..self.len() {
            self.stop_at(task, place);
        }
    }

    /// How many places there are.
    fn len(&self) -> usize
        ensures len { result ≡ length self.now.slots }
        ensures table { IsTable self.now.pool self.now.slots }
    {
        self.slots.len()
    }

    /// The part at a place, if it is of that task and here, is free from now on.
    fn stop_at(&mut self, task: u32, place: usize)
        requires { place < length self.old.slots }
        ensures slots { self.new.slots ≡ set self.old.slots place (stopped task (get_or self.old.slots place None)) }
        ensures pool { IsSamePool self.old.pool self.new.pool }
    {
        if is_here_of(&self.slots[place], task) {
            let slot = mem::take(&mut self.slots[place]);
            let part = into_part(slot);
            self.pool.give_back(part);
        }
    }
}
