//! Settings of environments in memory.

use crate::bytes::bytes_of;
use crate::lines::{field_and_rest, numbers, word_and_rest};
use crate::rows::{add, add_number};
use crate::settings::shown::{add_fault, add_settings};
use crate::settings::spelled::{option, utf8_of};
use env_settings::{SettingsFault, read_settings};
use outside_memory::MemEnv;
use s3_model::{OutOfMemory, Settings};
use s3_outside::S3_LIMITS;
use std::alloc::Global;
use std::mem;

fn set_all(alloc: Global, env: &mut MemEnv, variables: &str) -> Result<(), OutOfMemory> {
    for word in variables.split(' ') {
        if let Some((name, value)) = word.split_once('=') {
            env.set(alloc, name, value)?;
        }
    }
    Ok(())
}

fn put_all(alloc: Global, env: &mut MemEnv, files: &str) -> Result<(), OutOfMemory> {
    for file in files.split(" | ") {
        if let Some((path, text)) = file.split_once('=') {
            env.put_file(alloc, path, bytes_of(alloc, text))?;
        }
    }
    Ok(())
}

/// Gives an environment these variables and files.
fn fill(alloc: Global, env: &mut MemEnv, spelled: &str, files: &str) -> Result<(), OutOfMemory> {
    let variables = bytes_of(alloc, spelled);
    set_all(alloc, env, utf8_of(&variables))?;
    put_all(alloc, env, files)
}

fn read(alloc: Global, env: &mut MemEnv, named: &str) -> Result<Settings, SettingsFault> {
    let (region, profile) = word_and_rest(named);
    read_settings(alloc, env, option(alloc, region), option(alloc, profile))
}

fn add_found(row: &mut String, found: &Result<Settings, SettingsFault>) {
    match found {
        Ok(settings) => add_settings(row, settings),
        Err(SettingsFault::EnvRead) => add(row, "read"),
        Err(SettingsFault::Profile(fault)) => add_fault(row, fault),
        Err(SettingsFault::Memory) => add(row, "memory"),
    }
}

/// Adds what an environment gives, and how many files were asked for.
fn add_read(alloc: Global, row: &mut String, env: &mut MemEnv, named: &str) {
    let found = read(alloc, env, named);
    add_found(row, &found);
    mem::drop(found);
    add(row, " asked");
    add_number(row, env.asked().len() as u64);
}

/// Adds what an environment gives that has these variables and files, and of which these reads fail.
pub(crate) fn add_answer(alloc: Global, row: &mut String, fields: &str) {
    let (variables, fields) = field_and_rest(fields);
    let (named, fields) = field_and_rest(fields);
    let (failing, files) = field_and_rest(fields);
    let mut env = MemEnv::make_failing(alloc, S3_LIMITS, numbers(alloc, failing));
    match fill(alloc, &mut env, variables, files) {
        Ok(()) => add_read(alloc, row, &mut env, named),
        Err(OutOfMemory) => add(row, "no memory"),
    }
    mem::drop(env);
}
