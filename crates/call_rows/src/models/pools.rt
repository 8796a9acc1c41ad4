//! Pools of parts.

ghost use Rattle.std.specs.Prelude.{◌≡◌, ◌≤◌, ◌+◌, []};

use crate::lines::push_value;
use chunk_plan::{Part, PartPool};
use s3_model::OutOfMemory;
use std::alloc::{AllocError, Global};

/// How many parts are free, and how many are lent.
fn counts(pool: &PartPool) -> (u32, u32) {
    (pool.free(), pool.lent())
}

/// How many bytes a part has, and its room.
fn sizes(part: &Part) -> (usize, u64) {
    (part.bytes.as_slice().len(), part.bytes.room())
}

/// The two parts of a pool.
fn two_of(pool: &mut PartPool) -> (Part, Part)
    requires { pool.old.free ≡ 2 }
    ensures free { pool.new.free ≡ 0 }
    ensures lent { pool.new.lent ≡ pool.old.lent + 2 }
    ensures pool_room { pool.new.room ≡ pool.old.room }
    ensures empty { result.0.bytes.bytes ≡ [] }
    ensures first_room { pool.old.room ≤ result.0.bytes.room }
    ensures second_room { pool.old.room ≤ result.1.bytes.room }
{
    let (Some(first), Some(second)) = (pool.lend(), pool.lend()) else {
        unreachable!()
    };
    (first, second)
}

/// What was seen while both parts were lent, one came back, and was lent again: whether there was no third, the counts
/// twice, and the sizes of the part.
type Seen = (bool, (u32, u32), (u32, u32), (usize, u64));

/// Both parts are lent; one comes back with bytes and is lent again, and both come back.
fn lend_both(pool: &mut PartPool) -> Seen
    requires free { pool.old.free ≡ 2 }
    requires lent { pool.old.lent ≡ 0 }
    requires room { 4 ≤ pool.old.room }
    ensures free { pool.new.free ≡ 2 }
    ensures lent { pool.new.lent ≡ 0 }
{
    let (mut first, second) = two_of(pool);
    first.bytes.add(b"abcd");
    let is_last = pool.lend().is_none();
    let both_lent = counts(pool);
    pool.give_back(first);
    let one_back = counts(pool);
    let Some(again) = pool.lend() else {
        unreachable!()
    };
    let sizes = sizes(&again);
    pool.give_back(second);
    pool.give_back(again);
    (is_last, both_lent, one_back, sizes)
}

/// The sizes of both parts, and the counts when they are back.
type Larger = ((usize, u64), (usize, u64), (u32, u32));

fn lend_larger(pool: &mut PartPool) -> Larger
    requires { pool.old.free ≡ 2 }
{
    let (first, second) = two_of(pool);
    let (first_sizes, second_sizes) = (sizes(&first), sizes(&second));
    pool.give_back(first);
    pool.give_back(second);
    (first_sizes, second_sizes, counts(pool))
}

/// A pool whose parts are lent, are enlarged, then by less than they have, and are lent again.
fn lend_and_enlarge(alloc: Global) -> Result<(Seen, Larger), OutOfMemory> {
    let mut pool = PartPool::make(alloc, 2, 4)?;
    let seen = lend_both(&mut pool);
    pool.enlarge(16)?;
    pool.enlarge(8)?;
    Ok((seen, lend_larger(&mut pool)))
}

pub(crate) fn push_lent(alloc: Global, out: &mut String) -> Result<(), AllocError> {
    match lend_and_enlarge(alloc) {
        Ok((seen, larger)) => write!(out, "{seen:?} {larger:?}"),
        Err(fault) => push_value(out, fault),
    }
}

/// The room of a part, which comes back.
fn room_of_one(pool: &mut PartPool) -> u64
    requires { 1 ≤ pool.old.free }
    ensures lent { pool.new.lent ≡ pool.old.lent }
    ensures free { pool.new.free ≡ pool.old.free }
{
    let Some(part) = pool.lend() else {
        unreachable!()
    };
    let room = part.bytes.room();
    pool.give_back(part);
    room
}

/// The rooms of one of so many parts of 8 MiB, and of one that is enlarged to so many bytes.
fn rooms_of_one(alloc: Global, count: u32, bytes: u64) -> Result<(u64, u64), OutOfMemory>
    requires { 1 ≤ count }
{
    let mut pool = PartPool::make(alloc, count, 8388608)?;
    let before = room_of_one(&mut pool);
    pool.enlarge(bytes)?;
    Ok((before, room_of_one(&mut pool)))
}

/// The sizes of transfers: ten parts of 8 MiB, then of 128 MiB, and one part of 1 GiB.
fn transfer_sizes(alloc: Global) -> Result<(u64, u64, u64), OutOfMemory> {
    let (_, single) = rooms_of_one(alloc, 1, 1073741824)?;
    let (before, after) = rooms_of_one(alloc, 10, 134217728)?;
    Ok((before, after, single))
}

pub(crate) fn push_large(alloc: Global, out: &mut String) -> Result<(), AllocError> {
    match transfer_sizes(alloc) {
        Ok((before, after, single)) => write!(out, "{before} {after} {single}"),
        Err(fault) => push_value(out, fault),
    }
}
