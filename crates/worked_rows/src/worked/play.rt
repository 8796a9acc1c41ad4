//! A run, and what it came to.

ghost use Rattle.std.specs.Prelude.{◌≡◌, vec_len};

use crate::worked::given::Given;
use crate::worked::shown::ended;
use outside_memory::ScriptWire;
use s3_main::run_s3;
use s3_model::OutOfMemory;
use std::alloc::Global;
use std::mem;
use std::sync::Wait;
use std::thread::Threads;

/// How a run ended.
#[derive(Clone, Copy)]
pub(crate) struct End {
    pub status: u8,
    /// Whether it ended before its plan.
    pub stopped: bool,
}

/// Runs a command over one wire.
fn end_of<R>(rt: &R, alloc: Global, given: &mut Given, wires: &mut Vec<ScriptWire>) -> End
where
    R: Threads + Wait + Clone + Send + Sync + Drop + 'static,
    requires { vec_len wires.old ≡ 1 }
{
    let run = run_s3(
        rt,
        alloc,
        given.words.as_slice(),
        &mut given.env,
        &mut given.files,
        wires,
        &mut given.out,
        &mut given.err,
    );
    let end = End {
        status: run.status,
        stopped: run.fatal.is_some(),
    };
    mem::drop(run);
    end
}

/// Runs a command over one wire, and shows its status and its outputs.
fn played<R>(
    rt: &R,
    alloc: Global,
    row: &str,
    line: &str,
    wires: &mut Vec<ScriptWire>,
) -> Result<String, OutOfMemory>
where
    R: Threads + Wait + Clone + Send + Sync + Drop + 'static,
    requires { vec_len wires.old ≡ 1 }
{
    let mut given = Given::make(alloc, row, line)?;
    let end = end_of(rt, alloc, &mut given, wires);
    ended(alloc, end, &given)
}

/// Runs the command of a line over these wires, and shows its status and its outputs.
pub(crate) fn play<R>(
    rt: &R,
    alloc: Global,
    row: &str,
    line: &str,
    wires: &mut Vec<ScriptWire>,
) -> Result<String, OutOfMemory>
where
    R: Threads + Wait + Clone + Send + Sync + Drop + 'static,
{
    if wires.len() == 1 {
        played(rt, alloc, row, line, wires)
    } else {
        Ok(String::from_str(alloc, "one wire is wanted")?)
    }
}
