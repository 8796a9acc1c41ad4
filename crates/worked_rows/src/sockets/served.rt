//! A service in memory on the loopback.

use s3_fakes::SharedTable;
use service_answers::whole_length;
use std::alloc::{AllocError, Global};
use std::io::{self, Read, Write};
use std::net::{TcpListener, TcpStream};
use std::sync::Wait;

/// How many bytes are read at most at once.
const PIECE: usize = 4_096;

/// The answer to the whole request in front, and what is behind it; None as long as it is not whole.
fn answered<R: Wait>(
    rt: &R,
    alloc: Global,
    table: &SharedTable,
    wire: u32,
    came: &[u8],
) -> io::Result<Option<(Vec<u8>, Vec<u8>)>> {
    let Some(length) = whole_length(came) else {
        return Ok(None);
    };
    let (Some(request), Some(behind)) = (came.get(..length), came.get(length..)) else {
        return Ok(None);
    };
    match table.lock(rt).answer(wire, request) {
        Ok(coming) => Ok(Some((coming.bytes, behind.to_vec(alloc)?))),
        Err(_) => Err(AllocError.into()),
    }
}

/// Answers the requests of a connection until its end. Whether any byte came.
fn serve_connection<R: Wait>(
    rt: &R,
    alloc: Global,
    stream: &mut TcpStream,
    table: &SharedTable,
) -> io::Result<bool> {
    let wire = table.lock(rt).new_wire();
    let mut came: Vec<u8> = Vec::new(alloc);
    let mut is_used = false;
    for _ in 0..u64::MAX {
        let mut piece = [0u8; PIECE];
        let count = stream.read(&mut piece)?;
        if count == 0 {
            break;
        }
        is_used = true;
        came.extend_from_slice(&piece[..count])?;
        if let Some((answer, behind)) = answered(rt, alloc, table, wire, &came)? {
            stream.write_all(answer.as_slice())?;
            came = behind;
        }
    }
    Ok(is_used)
}

/// Serves one connection after the other, until one ends without a byte.
pub(crate) fn serve<R: Wait>(
    rt: &R,
    alloc: Global,
    listener: &TcpListener,
    table: &SharedTable,
) -> io::Result<()> {
    for stream in listener.incoming() {
        let mut stream = stream?;
        if !serve_connection(rt, alloc, &mut stream, table)? {
            break;
        }
    }
    Ok(())
}
