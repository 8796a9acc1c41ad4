//! Times parts of the product for the scripts in `bench/`.
//!
//! `timings handovers LANES JOBS` prints nanoseconds and the sum of the outcomes; `timings listing` prints a listing, and
//! `timings listings READS` prints nanoseconds, the listing's length in bytes, and how many objects were read;
//! `timings patterns PATTERN PATH ROUNDS` prints how often the pattern was read, the nanoseconds for that and for matching
//! it with the path as often, and how often it matched. Without words it gives a few jobs, reads a listing, and prints the
//! sum and the number of objects.
#![tactic(auto)]

mod handovers;
mod listings;
mod patterns;

use handovers::hand_over;
use listings::{listing, read_again};
use path_filters::Pattern;
use std::alloc::Global;
use std::process::ExitCode;
use std::rt::Runtime;
use std::sync::Wait;
use std::thread::Threads;
use std::time::Instant;
use std::{env, io};

/// The status where the words are not understood, or what they ask for can't be had.
const REFUSED: u8 = 2;

/// Prints how long it took to hand that many jobs over.
fn time_handovers<R: Runtime + Threads + Wait + Send + 'static>(
    rt: &R,
    alloc: Global,
    lanes: u32,
    jobs: u64,
) -> io::Result<u8> {
    let begun = Instant::now(rt)?;
    let Some(sum) = hand_over(rt, alloc, lanes, jobs)? else {
        return Ok(REFUSED);
    };
    let took = begun.elapsed(rt)?.as_nanos();
    println!(rt; "{took} {sum}")?;
    Ok(0)
}

/// Prints how long it took to read a listing that often.
fn time_listings<R: Runtime>(rt: &R, alloc: Global, reads: u32) -> io::Result<u8> {
    let text = listing(alloc)?;
    let begun = Instant::now(rt)?;
    let Some(objects) = read_again(alloc, text.as_str(), reads) else {
        return Ok(REFUSED);
    };
    let took = begun.elapsed(rt)?.as_nanos();
    let size = text.len();
    println!(rt; "{took} {size} {objects}")?;
    Ok(0)
}

/// How often a pattern was read, and how long that took in nanoseconds.
fn time_reads<R: Runtime>(
    rt: &R,
    alloc: Global,
    text: &str,
    rounds: u32,
) -> io::Result<Option<(u32, u128)>> {
    let begun = Instant::now(rt)?;
    let Ok(reads) = patterns::read_again(alloc, text, rounds) else {
        return Ok(None);
    };
    Ok(Some((reads, begun.elapsed(rt)?.as_nanos())))
}

/// How often a pattern matched a path, and how long that took in nanoseconds.
fn time_matches<R: Runtime>(
    rt: &R,
    pattern: &Pattern,
    path: &str,
    rounds: u32,
) -> io::Result<(u32, u128)> {
    let begun = Instant::now(rt)?;
    let matched = patterns::match_again(pattern, path, rounds);
    Ok((matched, begun.elapsed(rt)?.as_nanos()))
}

/// Prints how long it took to read a pattern that often, and to match it with a path.
fn time_patterns<R: Runtime>(
    rt: &R,
    alloc: Global,
    text: &str,
    path: &str,
    rounds: u32,
) -> io::Result<u8> {
    let Ok(pattern) = Pattern::read(alloc, text) else {
        return Ok(REFUSED);
    };
    let Some((reads, read)) = time_reads(rt, alloc, text, rounds)? else {
        return Ok(REFUSED);
    };
    let (matched, took) = time_matches(rt, &pattern, path, rounds)?;
    println!(rt; "{reads} {read} {took} {matched}")?;
    Ok(0)
}

fn show_listing<R: Runtime>(rt: &R, alloc: Global) -> io::Result<u8> {
    let text = listing(alloc)?;
    rt.println(text.as_str())?;
    Ok(0)
}

fn show_both<R: Runtime + Threads + Wait + Send + 'static>(
    rt: &R,
    alloc: Global,
) -> io::Result<u8> {
    let text = listing(alloc)?;
    let sum = hand_over(rt, alloc, 4, 1_000)?;
    let objects = read_again(alloc, text.as_str(), 1);
    match (sum, objects) {
        (Some(sum), Some(objects)) => {
            println!(rt; "{sum} {objects}")?;
            Ok(0)
        }
        _ => Ok(REFUSED),
    }
}

fn word(words: &[String], place: usize) -> &str {
    match words.get(place) {
        Some(word) => word.as_str(),
        None => "",
    }
}

fn run_listings<R: Runtime>(rt: &R, alloc: Global, reads: &str) -> io::Result<u8> {
    match reads.parse() {
        Ok(reads) => time_listings(rt, alloc, reads),
        Err(_) => Ok(REFUSED),
    }
}

fn run_handovers<R: Runtime + Threads + Wait + Send + 'static>(
    rt: &R,
    alloc: Global,
    lanes: &str,
    jobs: &str,
) -> io::Result<u8> {
    match (lanes.parse(), jobs.parse()) {
        (Ok(lanes), Ok(jobs)) => time_handovers(rt, alloc, lanes, jobs),
        _ => Ok(REFUSED),
    }
}

fn run_patterns<R: Runtime>(rt: &R, alloc: Global, words: &[String]) -> io::Result<u8> {
    let (text, path) = (word(words, 1), word(words, 2));
    match word(words, 3).parse() {
        Ok(rounds) => time_patterns(rt, alloc, text, path, rounds),
        Err(_) => Ok(REFUSED),
    }
}

/// What the words ask for, by their number and the first of them.
fn run<R: Runtime + Threads + Wait + Send + 'static>(
    rt: &R,
    alloc: Global,
    words: &[String],
) -> io::Result<u8> {
    match (words.len(), word(words, 0)) {
        (0, _) => show_both(rt, alloc),
        (1, "listing") => show_listing(rt, alloc),
        (2, "listings") => run_listings(rt, alloc, word(words, 1)),
        (3, "handovers") => run_handovers(rt, alloc, word(words, 1), word(words, 2)),
        (4, "patterns") => run_patterns(rt, alloc, words),
        _ => Ok(REFUSED),
    }
}

fn words_of(rt: &HostRuntime) -> io::Result<Vec<String>> {
    let mut words = Vec::new(rt.alloc());
    for word in env::args(rt)?.skip(1) {
        words.push(word)?;
    }
    Ok(words)
}

fn main(rt: HostRuntime) -> io::Result<ExitCode> {
    let words = words_of(&rt)?;
    let status = run(&rt, rt.alloc(), &words)?;
    Ok(ExitCode::from(status))
}
