//! The program `s3`: the top call over sockets, the disk, the two outputs and the environment of the system.
#![tactic(auto)]

mod help;
mod words;

use help::{HELP, VERSION};
use outside_system::{DiskFiles, RealEnv, SocketWire, StdSink};
use s3_main::{Run, run_s3};
use std::alloc::AllocError;
use std::fs::File;
use std::mem;
use std::process::ExitCode;
use std::sync::Wait;
use std::thread::Threads;
use words::{Unread, read_words};

/// How many connections there are at most.
const WIRES: usize = 64;

/// The status where memory ran out before the run.
const OUT_OF_MEMORY: u8 = 70;

/// The status where an output failed.
const OUTPUT_FAILED: u8 = 74;

/// The status of words that are no text.
const BAD_WORDS: u8 = 252;

fn wires(rt: &HostRuntime) -> Result<Vec<SocketWire<HostRuntime>>, AllocError> {
    let mut wires = Vec::new(rt.alloc());
    for _ in 0..WIRES {
        wires.push(SocketWire::new(rt.clone()?))?;
    }
    Ok(wires)
}

fn environment(rt: &HostRuntime) -> Result<RealEnv<HostRuntime>, AllocError> {
    Ok(RealEnv::new(rt.clone()?))
}

fn disk(rt: &HostRuntime) -> Result<DiskFiles<HostRuntime>, AllocError> {
    Ok(DiskFiles::new(rt.clone()?))
}

/// Files that take the numbers of standard descriptors that are closed, so that no connection and no file of the run
/// gets the number of an output.
fn placeholders(rt: &HostRuntime) -> [Option<File>; 3] {
    [placeholder(rt), placeholder(rt), placeholder(rt)]
}

fn placeholder(rt: &HostRuntime) -> Option<File> {
    File::open(rt, "/dev/null").ok()
}

fn show(rt: &HostRuntime, text: &str) -> u8 {
    match print!(rt; "{text}") {
        Ok(()) => 0,
        Err(_) => OUTPUT_FAILED,
    }
}

fn show_error(rt: &HostRuntime, text: &str, status: u8) -> u8 {
    match eprint!(rt; "{text}") {
        Ok(()) => status,
        Err(_) => OUTPUT_FAILED,
    }
}

fn is_command(word: &str) -> bool {
    matches!(word, "cp" | "mv" | "sync" | "rm" | "ls" | "presign")
}

/// Answers the words that ask about the program alone.
fn answered(rt: &HostRuntime, words: &[String]) -> Option<u8> {
    match words {
        [only] if matches!(only.as_str(), "--help" | "-h" | "help") => Some(show(rt, HELP)),
        [only] if only.as_str() == "--version" => Some(show(rt, VERSION)),
        [command, help]
            if is_command(command.as_str()) && matches!(help.as_str(), "--help" | "help") => {
            Some(show(rt, HELP))
        }
        _ => None,
    }
}

/// Without any words the help follows the line that says so.
fn end(rt: &HostRuntime, words: &[String], status: u8) -> u8 {
    if words.is_empty() && status == BAD_WORDS {
        show_error(rt, HELP, status)
    } else {
        status
    }
}

fn refuse(rt: &HostRuntime, unread: &Unread) -> u8 {
    match unread {
        Unread::Escaped(word) => match eprintln!(rt; "s3: this word is not UTF-8: {word}") {
            Ok(()) => BAD_WORDS,
            Err(_) => OUTPUT_FAILED,
        },
        Unread::Memory => OUT_OF_MEMORY,
    }
}

fn status_of(run: Run) -> u8 {
    let status = run.status;
    mem::drop(run);
    status
}

/// Runs these words over the sockets, the disk, the outputs and the environment of the system, and answers the status.
fn run_words<R>(threads: &R, rt: &HostRuntime, words: &[String]) -> u8
where
    R: Threads + Wait + Clone + Send + Sync + Drop + 'static,
{
    let (Ok(mut wires), Ok(mut env), Ok(mut files)) = (wires(rt), environment(rt), disk(rt)) else {
        return OUT_OF_MEMORY;
    };
    if wires.len() != WIRES {
        return OUT_OF_MEMORY;
    }
    let mut out = StdSink::new(rt.stdout());
    let mut err = StdSink::new(rt.stderr());
    let run = run_s3(
        threads,
        rt.alloc(),
        words,
        &mut env,
        &mut files,
        &mut wires,
        &mut out,
        &mut err,
    );
    status_of(run)
}

fn main(rt: HostRuntime) -> ExitCode {
    let _placeholders = placeholders(&rt);
    let words = match read_words(&rt) {
        Ok(words) => words,
        Err(unread) => return ExitCode::from(refuse(&rt, &unread)),
    };
    let status = match answered(&rt, words.as_slice()) {
        Some(status) => status,
        None => end(&rt, words.as_slice(), run_words(&rt, &rt, words.as_slice())),
    };
    ExitCode::from(status)
}
