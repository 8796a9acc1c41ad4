//! Puts into a service of the system, and the time that they take.

use crate::lanes::puts::{lane_to, put_each};
use lane_jobs::Lane;
use outside_system::SocketWire;
use s3_model::OutOfMemory;
use std::alloc::{AllocError, Global};
use std::time::Instant;
use std::{env, io, mem};

/// A lane to a service of the system.
fn lane_of_system(
    rt: &HostRuntime,
    alloc: Global,
    host: &str,
    port: u16,
) -> io::Result<Lane<SocketWire<HostRuntime>>> {
    let wire = SocketWire::new(rt.clone()?);
    match lane_to(alloc, wire, host, port) {
        Ok(lane) => Ok(lane),
        Err(OutOfMemory) => Err(AllocError.into()),
    }
}

/// Puts objects over a lane; the nanoseconds that it took, and how many were stored.
fn time_each(
    rt: &HostRuntime,
    alloc: Global,
    lane: &mut Lane<SocketWire<HostRuntime>>,
    bucket: &str,
    count: u32,
) -> io::Result<(u128, u32)> {
    let begun = Instant::now(rt)?;
    let stored = put_each(alloc, lane, bucket, count);
    Ok((begun.elapsed(rt)?.as_nanos(), stored))
}

/// Where objects go, and how many.
#[derive(Clone, Copy)]
pub(crate) struct Goal<'a> {
    host: &'a str,
    port: u16,
    bucket: &'a str,
    count: u32,
}

/// The goal that four words name.
fn goal_of<'a>(host: &'a str, port: &str, bucket: &'a str, count: &str) -> Option<Goal<'a>> {
    let port = port.parse().ok()?;
    let count = count.parse().ok()?;
    Some(Goal {
        host,
        port,
        bucket,
        count,
    })
}

/// Puts objects over a lane, and prints how long that took and how many were stored.
fn time_over(
    rt: &HostRuntime,
    alloc: Global,
    lane: &mut Lane<SocketWire<HostRuntime>>,
    goal: Goal<'_>,
) -> io::Result<u8> {
    let (took, stored) = time_each(rt, alloc, lane, goal.bucket, goal.count)?;
    println!(rt; "{took} {stored}")?;
    Ok(0)
}

/// Puts objects into a service, and prints how long that took and how many were stored.
pub(crate) fn time_puts(rt: &HostRuntime, alloc: Global, goal: Goal<'_>) -> io::Result<u8> {
    match lane_of_system(rt, alloc, goal.host, goal.port) {
        Ok(mut lane) => {
            let timed = time_over(rt, alloc, &mut lane, goal);
            mem::drop(lane);
            timed
        }
        Err(fault) => Err(fault),
    }
}

/// What the words ask for.
#[derive(Clone, Copy)]
pub(crate) enum Wanted<'a> {
    /// The rows of the lines that are read.
    Rows,
    Timed(Goal<'a>),
    Nothing,
}

pub(crate) fn read_wanted(words: &[String]) -> Wanted<'_> {
    match words {
        [] => Wanted::Rows,
        [host, port, bucket, count] => {
            match goal_of(
                host.as_str(),
                port.as_str(),
                bucket.as_str(),
                count.as_str(),
            ) {
                Some(goal) => Wanted::Timed(goal),
                None => Wanted::Nothing,
            }
        }
        _ => Wanted::Nothing,
    }
}

pub(crate) fn words_of(rt: &HostRuntime, alloc: Global) -> io::Result<Vec<String>> {
    let mut words = Vec::new(alloc);
    for word in env::args(rt)?.skip(1) {
        words.push(word)?;
    }
    Ok(words)
}
