//! The environment of the process.

ghost use Rattle.std.specs.Prelude.{◌≡◌, ◌≤◌, None, IfOk, IfSome, length};
ghost use Rattle.s3_outside.specs.declared.env.TheConstants.{S3_LIMITS};

use crate::disk_paths::is_absent;
use s3_model::{Limits, OutOfMemory, Text};
use s3_outside::{Env, EnvFault, MOST_FILE_BYTES, S3_LIMITS, count_fault};
use std::alloc::Global;
use std::env::{self, VarError};
use std::fs::File;
use std::io::{self, ErrorKind, Read};
use std::rt;

/// The environment of this process, the files of the system and the limits of Amazon S3. Nothing of them is seen.
#[derive(Drop)]
pub struct RealEnv<R> {
    runtime: R,
    faults: u64,
}

impl<R: rt::Env + rt::Files + AllocGlobal> RealEnv<R> {
    pub fn new(runtime: R) -> RealEnv<R>
        ensures { ⟦<RealEnv<R> as Env>⟧.faults result ≡ 0 }
    {
        RealEnv { runtime, faults: 0 }
    }
}

impl<R: rt::Env + rt::Files + AllocGlobal> Env for RealEnv<R> {
    ghost seen = { λ _. None };

    ghost allows = { λ _. S3_LIMITS };

    ghost faults = { λ e. e.faults };

    fn word(&mut self, _alloc: Global, name: &str) -> Result<Option<Text>, OutOfMemory> {
        match env::var(&self.runtime, name) {
            Ok(value) => Ok(Some(Text::from(value))),
            Err(VarError::OutOfMemory) => Err(OutOfMemory),
            Err(VarError::NotPresent | VarError::NotUnicode) => Ok(None),
        }
    }

    /// What is not found, or lies below a file, is absent; a folder is a fault.
    fn file(&mut self, alloc: Global, path: &str) -> Result<Option<Vec<u8>>, EnvFault> {
        match read_file(&self.runtime, alloc, path) {
            Ok(bytes) => Ok(Some(bytes)),
            Err(e) if is_absent(e.kind()) => Ok(None),
            Err(e) if e.kind() == ErrorKind::OutOfMemory => Err(EnvFault::Memory),
            Err(_) => {
                count_fault(&mut self.faults);
                Err(EnvFault::Failed)
            }
        }
    }

    fn limits(&self) -> Limits {
        S3_LIMITS
    }
}

// The bytes of a file. At most one more is read than there may be.
fn read_file(runtime: &impl rt::Files, alloc: Global, path: &str) -> io::Result<Vec<u8>>
    ensures { IfOk result (λ bytes. length bytes.items ≤ 1048576) }
{
    let file = File::open(runtime, path)?;
    let mut bytes = Vec::new(alloc);
    file.take(MOST_FILE_BYTES as u64 + 1)
        .read_to_end(&mut bytes)?;
    if bytes.len() > MOST_FILE_BYTES {
        return Err(io::Error::from(ErrorKind::FileTooLarge));
    }
    Ok(bytes)
}
