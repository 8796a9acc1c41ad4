//! What a run is given: a wire, files, an environment and outputs in memory.

use crate::settings::{MOMENT, set_keys, words_of};
use crate::worked::fields::{value, value_in};
use outside_memory::{FileTable, MemEnv, MemFile, MemFiles, MemSink, ScriptWire};
use s3_model::OutOfMemory;
use s3_outside::S3_LIMITS;
use std::alloc::{AllocError, Global};

fn push_answer(alloc: Global, answers: &mut Vec<Vec<u8>>, answer: &str) -> Result<(), AllocError> {
    let bytes = answer.as_bytes().to_vec(alloc)?;
    answers.push(bytes)?;
    Ok(())
}

/// An answer for each talk.
fn answers(alloc: Global, row: &str) -> Result<Vec<Vec<u8>>, AllocError> {
    let mut answers = Vec::new(alloc);
    for field in row.split("; ") {
        if let Some(answer) = value_in(field, "answer") {
            push_answer(alloc, &mut answers, answer)?;
        }
    }
    Ok(answers)
}

/// One wire, which gives an answer for each talk.
pub(crate) fn wires(alloc: Global, row: &str) -> Result<Vec<ScriptWire>, AllocError> {
    let answers = answers(alloc, row)?;
    let wire = ScriptWire::make(alloc, answers, Vec::new(alloc), MOMENT);
    Ok(vec![in alloc; wire]?)
}

fn put(alloc: Global, env: &mut MemEnv, path: &str, text: &str) -> Result<(), OutOfMemory> {
    if text.is_empty() {
        return Ok(());
    }
    let bytes = text.as_bytes().to_vec(alloc)?;
    env.put_file(alloc, path, bytes)
}

/// An environment whose first settings file cannot be read where the row says so.
fn empty(alloc: Global, row: &str) -> Result<MemEnv, AllocError> {
    let mut failing = Vec::new(alloc);
    if value(row, "unreadable") == "yes" {
        failing.push(0)?;
    }
    Ok(MemEnv::make_failing(alloc, S3_LIMITS, failing))
}

/// Sets the variables of a row.
fn set_variables(alloc: Global, env: &mut MemEnv, row: &str) -> Result<(), OutOfMemory> {
    env.set(alloc, "HOME", "/h")?;
    let count = value(row, "variables").parse::<usize>().unwrap_or(3);
    set_keys(alloc, env, count)
}

/// Puts the settings files of a row, which stand below `/h`.
fn put_settings(alloc: Global, env: &mut MemEnv, row: &str) -> Result<(), OutOfMemory> {
    put(alloc, env, "/h/.aws/config", value(row, "config"))?;
    put(alloc, env, "/h/.aws/credentials", value(row, "credentials"))
}

fn fill(alloc: Global, env: &mut MemEnv, row: &str) -> Result<(), OutOfMemory> {
    set_variables(alloc, env, row)?;
    put_settings(alloc, env, row)
}

/// The variables and the settings files of a row.
fn environment(alloc: Global, row: &str) -> Result<MemEnv, OutOfMemory> {
    let mut env = empty(alloc, row)?;
    fill(alloc, &mut env, row)?;
    Ok(env)
}

fn file_of(alloc: Global, bytes: &[u8]) -> Result<MemFile, AllocError> {
    Ok(MemFile::new(bytes.to_vec(alloc)?, 7))
}

fn put_file(
    alloc: Global,
    table: &mut FileTable,
    path: &str,
    bytes: &[u8],
) -> Result<(), OutOfMemory> {
    let file = file_of(alloc, bytes)?;
    table.put_file(alloc, path, file)
}

/// Puts a tree of three files, and one of a file beside what is no file.
fn put_trees(alloc: Global, table: &mut FileTable) -> Result<(), OutOfMemory> {
    put_file(alloc, table, "t/b.log", b"1")?;
    put_file(alloc, table, "t/one.txt", b"22")?;
    put_file(alloc, table, "t/sub/c.txt", b"333")?;
    put_file(alloc, table, "e/f.txt", b"")?;
    table.add_other(alloc, "e/pipe")
}

/// Puts the files of all rows.
fn put_files(alloc: Global, table: &mut FileTable) -> Result<(), OutOfMemory> {
    put_file(alloc, table, "a.txt", b"hello")?;
    put_file(alloc, table, "d/b.txt", b"")?;
    put_trees(alloc, table)?;
    table.add_other(alloc, "dev")
}

/// The files of all rows.
fn files(alloc: Global) -> Result<MemFiles, OutOfMemory> {
    let mut table = FileTable::make(alloc);
    put_files(alloc, &mut table)?;
    Ok(MemFiles::make(alloc, table, Vec::new(alloc), Vec::new(alloc)))
}

fn output(alloc: Global, row: &str) -> MemSink {
    let room = value(row, "room").parse::<usize>().unwrap_or(usize::MAX);
    MemSink::make_failing(alloc, Vec::new(alloc), room)
}

/// What a run is given beside its wire.
#[derive(Drop)]
pub(crate) struct Given {
    pub words: Vec<String>,
    pub env: MemEnv,
    pub files: MemFiles,
    pub out: MemSink,
    pub err: MemSink,
}

fn with_outputs(
    alloc: Global,
    row: &str,
    words: Vec<String>,
    env: MemEnv,
    files: MemFiles,
) -> Given {
    Given {
        words,
        env,
        files,
        out: output(alloc, row),
        err: output(alloc, row),
    }
}

impl Given {
    /// What a row gives to the command of that line.
    pub(crate) fn make(alloc: Global, row: &str, line: &str) -> Result<Given, OutOfMemory> {
        let words = words_of(alloc, line)?;
        let env = environment(alloc, row)?;
        let files = files(alloc)?;
        Ok(with_outputs(alloc, row, words, env, files))
    }
}
