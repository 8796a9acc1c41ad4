//! Environments.

use crate::lines::{count, numbers, word_and_rest};
use crate::outside::calls::{Called, add_calls};
use crate::rows::{add, add_shown};
use outside_memory::MemEnv;
use outside_system::RealEnv;
use s3_model::OutOfMemory;
use s3_outside::{Env, EnvFault, S3_LIMITS};
use std::alloc::Global;
use std::{fs, io, mem};

fn add_word<E: Env>(env: &mut E, alloc: Global, row: &mut String, name: &str) {
    match env.word(alloc, name) {
        Ok(Some(value)) => add_shown(row, value.as_str()),
        Ok(None) => add(row, "None"),
        Err(_) => add(row, "no memory"),
    }
}

/// How many bytes a file has.
fn length<E: Env>(env: &mut E, alloc: Global, path: &str) -> Result<Option<usize>, EnvFault> {
    match env.file(alloc, path) {
        Ok(Some(bytes)) => Ok(Some(bytes.len())),
        Ok(None) => Ok(None),
        Err(fault) => Err(fault),
    }
}

fn add_answer<E: Env>(env: &mut E, alloc: Global, row: &mut String, call: &str) {
    let (name, text) = word_and_rest(call);
    match name {
        "word" => add_word(env, alloc, row, text),
        "file" => add_shown(row, length(env, alloc, text)),
        "parts" => add_shown(row, env.limits().max_parts),
        _ => add(row, "?"),
    }
}

/// Sets a variable.
fn set(env: &mut MemEnv, alloc: Global, given: &str) -> Result<(), OutOfMemory> {
    let (name, value) = word_and_rest(given);
    env.set(alloc, name, value)
}

/// Puts a file of so many bytes.
fn put(env: &mut MemEnv, alloc: Global, given: &str) -> Result<(), OutOfMemory> {
    let (path, length) = word_and_rest(given);
    let bytes = vec![in alloc; 7u8; count(length)]?;
    env.put_file(alloc, path, bytes)
}

fn add_made(row: &mut String, came: Result<(), OutOfMemory>) {
    match came {
        Ok(()) => add(row, "made"),
        Err(OutOfMemory) => add(row, "no memory"),
    }
}

impl Called for MemEnv {
    fn add_answer(&mut self, alloc: Global, row: &mut String, call: &str) {
        let (name, given) = word_and_rest(call);
        match name {
            "set" => add_made(row, set(self, alloc, given)),
            "put" => add_made(row, put(self, alloc, given)),
            "asked" => add_shown(row, self.asked().len()),
            _ => add_answer(self, alloc, row, call),
        }
    }
}

impl Called for RealEnv<HostRuntime> {
    fn add_answer(&mut self, alloc: Global, row: &mut String, call: &str) {
        add_answer(self, alloc, row, call);
    }
}

/// An environment in memory, of which these reads fail.
fn add_in_memory(alloc: Global, row: &mut String, failing: &str, calls: &str) {
    let mut env = MemEnv::make_failing(alloc, S3_LIMITS, numbers(alloc, failing));
    add_calls(&mut env, alloc, row, calls);
    mem::drop(env);
}

fn add_of_the_system(rt: &HostRuntime, row: &mut String, calls: &str) -> io::Result<()> {
    let mut env = RealEnv::new(rt.clone()?);
    add_calls(&mut env, rt.alloc(), row, calls);
    Ok(())
}

/// The environment of the system, in which a settings file is made.
fn add_with_file(rt: &HostRuntime, row: &mut String, calls: &str) -> io::Result<()> {
    fs::write(rt, "settings.bin", "hello")?;
    add_of_the_system(rt, row, calls)?;
    fs::remove_file(rt, "settings.bin")
}

pub(crate) fn add_answers(
    rt: &HostRuntime,
    row: &mut String,
    how: &str,
    calls: &str,
) -> io::Result<()> {
    match how {
        "of the system" => add_with_file(rt, row, calls),
        _ => {
            add_in_memory(rt.alloc(), row, how, calls);
            Ok(())
        }
    }
}
