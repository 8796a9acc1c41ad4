//! The runs that lines name.

use crate::executor::idle::waits_asleep;
use crate::executor::lanes::{Given, by_number, in_turn, many, starts_no_thread};
use crate::executor::meeting::meet;
use crate::lines::word_and_rest;
use executor_uses::doubled;
use std::alloc::{AllocError, Global};
use std::sync::Wait;
use std::thread::Threads;

fn number(text: &str) -> u32 {
    text.parse::<u32>().unwrap_or(0)
}

/// So many numbers, from the greatest downwards.
fn numbers_down(alloc: Global, count: u32) -> Result<Vec<u32>, AllocError> {
    let mut jobs = Vec::new(alloc);
    for job in 0..count {
        jobs.push(u32::MAX - job)?;
    }
    Ok(jobs)
}

fn doubles<R: Threads + Wait + Clone + Send + Drop + 'static>(
    rt: &R,
    alloc: Global,
    count: u32,
) -> Result<String, AllocError> {
    let jobs = numbers_down(alloc, count)?;
    let doubles = doubled(rt, alloc, jobs)?;
    format!(in alloc; "{:?}", doubles.as_slice())
}

/// How lanes are made, and what they are given.
fn given(text: &str) -> (Given, &str) {
    let (how, text) = word_and_rest(text);
    let (lanes, text) = word_and_rest(text);
    let (depth, text) = word_and_rest(text);
    (
        Given::make(how == "alone", number(lanes), number(depth)),
        text,
    )
}

fn numbers(alloc: Global, text: &str) -> Result<Vec<u32>, AllocError> {
    let mut numbers = Vec::new(alloc);
    for word in text.split(' ') {
        numbers.push(number(word))?;
    }
    Ok(numbers)
}

/// Jobs by their numbers.
fn numbered<R: Threads + Wait + Clone + Send + Drop + 'static>(
    rt: &R,
    alloc: Global,
    given: &Given,
    jobs: &str,
) -> Result<String, AllocError> {
    let jobs = numbers(alloc, jobs)?;
    by_number(rt, alloc, given, jobs)
}

/// A run on lanes. Where they are to be without threads, none may start.
fn on_lanes<R: Threads + Wait + Clone + Send + Drop + 'static>(
    rt: &R,
    alloc: Global,
    name: &str,
    text: &str,
) -> Result<String, AllocError> {
    let (given, jobs) = given(text);
    if given.alone && !starts_no_thread(rt) {
        return String::from_str(alloc, "a thread starts");
    }
    match name {
        "in_turn" => in_turn(rt, alloc, &given, number(jobs)),
        _ => numbered(rt, alloc, &given, jobs),
    }
}

fn single<R: Threads + Wait + Clone + Send + Drop + 'static>(
    rt: &R,
    alloc: Global,
    clock: HostRuntime,
    name: &str,
) -> Result<String, AllocError> {
    match name {
        "many" => many(rt, alloc),
        "idle" => waits_asleep(rt, alloc, clock),
        _ => meet(rt, alloc, clock),
    }
}

/// What comes of a run.
pub(crate) fn answer_of<R: Threads + Wait + Clone + Send + Drop + 'static>(
    rt: &R,
    alloc: Global,
    clock: HostRuntime,
    line: &str,
) -> Result<String, AllocError> {
    let (name, text) = word_and_rest(line);
    match name {
        "doubled" => doubles(rt, alloc, number(text)),
        "in_turn" | "by_number" => on_lanes(rt, alloc, name, text),
        _ => single(rt, alloc, clock, name),
    }
}
