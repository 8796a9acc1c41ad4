//! Commands that are run with files of the disk, over sockets to a service in memory, which a thread serves on the loopback.
//!
//! A line is a command without its endpoint. Printed are what the run prints, its status, and what the service holds then.

mod served;

use crate::settings::{MOMENT, set_keys, words_of};
use crate::sockets::served::serve;
use outside_memory::MemEnv;
use outside_system::{DiskFiles, SocketWire, StdSink};
use s3_fakes::{MemTable, SharedTable};
use s3_main::{Run, run_s3};
use s3_model::OutOfMemory;
use s3_outside::S3_LIMITS;
use std::alloc::{AllocError, Global};
use std::net::{TcpListener, TcpStream};
use std::sync::Wait;
use std::thread::{Threads, join};
use std::{io, mem};

/// The status where the run could not begin.
const NO_RUN: u8 = 70;

fn service(alloc: Global) -> Result<SharedTable, OutOfMemory> {
    let mut table = MemTable::make(alloc, S3_LIMITS, MOMENT);
    table.add_bucket("b")?;
    table.share()
}

fn environment(alloc: Global) -> Result<MemEnv, OutOfMemory> {
    let mut env = MemEnv::make(alloc, S3_LIMITS);
    set_keys(alloc, &mut env, 3)?;
    Ok(env)
}

/// The words of a command whose service is at that port.
fn words(alloc: Global, command: &str, port: u16) -> Result<Vec<String>, AllocError> {
    let line = format!(in alloc; "{command} --endpoint-url http://127.0.0.1:{port}")?;
    words_of(alloc, line.as_str())
}

/// What the run meets of its host, but for the outputs.
#[derive(Drop)]
struct Outside {
    env: MemEnv,
    files: DiskFiles<HostRuntime>,
    wires: Vec<SocketWire<HostRuntime>>,
}

fn make_outside(host: &HostRuntime) -> Result<Outside, OutOfMemory> {
    let alloc = host.alloc();
    let (files, wire) = (host.clone()?, host.clone()?);
    let wires = vec![in alloc; SocketWire::new(wire)]?;
    Ok(Outside {
        env: environment(alloc)?,
        files: DiskFiles::new(files),
        wires,
    })
}

fn status_of(run: Run) -> u8 {
    let status = run.status;
    mem::drop(run);
    status
}

/// Runs these words over the sockets, the disk and the outputs of a host, and answers its status.
fn run_words<R>(rt: &R, host: &HostRuntime, words: &[String], outside: &mut Outside) -> u8
where
    R: Threads + Wait + Clone + Send + Sync + Drop + 'static,
{
    if outside.wires.len() != 1 {
        return NO_RUN;
    }
    let mut out = StdSink::new(host.stdout());
    let mut err = StdSink::new(host.stderr());
    status_of(run_s3(
        rt,
        host.alloc(),
        words,
        &mut outside.env,
        &mut outside.files,
        &mut outside.wires,
        &mut out,
        &mut err,
    ))
}

/// Runs a command with the service at that port, and answers its status.
fn status_with<R>(rt: &R, host: &HostRuntime, command: &str, port: u16) -> u8
where
    R: Threads + Wait + Clone + Send + Sync + Drop + 'static,
{
    let (Ok(words), Ok(mut outside)) = (words(host.alloc(), command, port), make_outside(host))
    else {
        return NO_RUN;
    };
    run_words(rt, host, words.as_slice(), &mut outside)
}

/// Runs a command, and then has the service end: it ends with a connection that sends nothing.
fn status_once<R>(rt: &R, host: &HostRuntime, command: &str, port: u16) -> u8
where
    R: Threads + Wait + Clone + Send + Sync + Drop + 'static,
{
    let status = status_with(rt, host, command, port);
    let _ = TcpStream::connect(host, ("127.0.0.1", port));
    status
}

fn shown(alloc: Global, table: &MemTable) -> Result<String, AllocError> {
    match table.object("b", "a.txt") {
        Some(object) => {
            let text = std::str::from_utf8(object.bytes()).unwrap_or("?");
            format!(in alloc; "b/a.txt holds {text}")
        }
        None => String::from_str(alloc, "b/a.txt is not there"),
    }
}

/// Runs a command while its service is served, and answers its status.
fn served_status<R>(
    rt: &R,
    host: &HostRuntime,
    command: &str,
    table: &SharedTable,
) -> io::Result<u8>
where
    R: Threads + Wait + Clone + Send + Sync + Drop + 'static,
{
    let alloc = host.alloc();
    let listener = TcpListener::bind(host, "127.0.0.1:0")?;
    let port = listener.local_addr()?.port();
    let (served, status) = join(
        rt,
        || serve(rt, alloc, &listener, table),
        || status_once(rt, host, command, port),
    );
    served?;
    Ok(status)
}

/// The status of a command, and what its service holds then.
pub(crate) fn row_of<R>(rt: &R, host: &HostRuntime, command: &str) -> io::Result<String>
where
    R: Threads + Wait + Clone + Send + Sync + Drop + 'static,
{
    let alloc = host.alloc();
    let Ok(table) = service(alloc) else {
        return Err(AllocError.into());
    };
    let status = served_status(rt, host, command, &table)?;
    let holds = shown(alloc, &table.lock(rt))?;
    Ok(format!(in alloc; "status {status}, {holds}")?)
}
