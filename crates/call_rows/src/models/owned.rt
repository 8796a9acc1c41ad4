//! Texts, lists, bytes and tries, with ample memory.

ghost use Rattle.std.specs.Prelude.{◌≡◌, []};

use crate::lines::push_value;
use s3_model::{Bytes, List, Mark, OutOfMemory, Text, Tries};
use std::alloc::{AllocError, Global};

fn copy_of(alloc: Global, text: &str) -> Result<Text, OutOfMemory> {
    Text::of(alloc, text)?.copy()
}

pub(crate) fn push_texts(alloc: Global, out: &mut String) -> Result<(), AllocError> {
    let owned = Text::from(String::from_str(alloc, "ab")?);
    match copy_of(alloc, "key é") {
        Ok(copy) => write!(out, "{}, {}", copy.as_str(), owned.as_str()),
        Err(fault) => push_value(out, fault),
    }
}

/// How many items there are, whether there are none, and the items of three places.
fn seen(list: &List<u32>) -> (usize, bool, Option<u32>, Option<u32>, Option<u32>) {
    let (first, second, third) = (list.at(0), list.at(1), list.at(2));
    (
        list.len(),
        list.is_empty(),
        first.copied(),
        second.copied(),
        third.copied(),
    )
}

fn push_seen(out: &mut String, list: &List<u32>) -> Result<(), AllocError> {
    write!(out, "{:?} ", seen(list))
}

fn two_items(alloc: Global) -> Result<List<u32>, OutOfMemory> {
    let mut list = List::make(alloc);
    list.reserve(2)?;
    list.push(7);
    list.push(9);
    Ok(list)
}

pub(crate) fn push_list(alloc: Global, out: &mut String) -> Result<(), AllocError> {
    push_seen(out, &List::make(alloc))?;
    match two_items(alloc) {
        Ok(list) => write!(out, "{:?} {:?}", seen(&list), list.as_slice()),
        Err(fault) => push_value(out, fault),
    }
}

fn push_state(out: &mut String, bytes: &Bytes) -> Result<(), AllocError> {
    let text = str::from_utf8(bytes.as_slice()).unwrap_or("no UTF-8");
    write!(out, " {text:?} of {};", bytes.room())
}

/// Adds the states of a place for four bytes: one that is filled, one without bytes, and one that was written anew.
fn push_changes(out: &mut String, bytes: &mut Bytes) -> Result<(), AllocError>
    requires empty { bytes.old.bytes ≡ [] }
    requires room { bytes.old.room ≡ 4 }
{
    bytes.add(b"ab");
    bytes.add(b"cd");
    push_state(out, bytes)?;
    bytes.clear();
    push_state(out, bytes)?;
    bytes.add(b"x");
    bytes.grow(3);
    bytes.as_mut_slice().copy_from_slice(b"wxyz");
    bytes.truncate(3);
    push_state(out, bytes)
}

pub(crate) fn push_bytes(alloc: Global, out: &mut String) -> Result<(), AllocError> {
    out.push_str("bytes:")?;
    match Bytes::make(alloc, 4) {
        Ok(mut bytes) => push_changes(out, &mut bytes),
        Err(fault) => push_value(out, fault),
    }
}

pub(crate) fn push_tries(out: &mut String) -> Result<(), AllocError> {
    let mut tries = Tries::none();
    tries.add(Mark::Uncertain);
    tries.add(Mark::Success);
    let marks = tries.as_slice();
    write!(out, "{marks:?}, {} of 10", marks.len() as u8)
}
