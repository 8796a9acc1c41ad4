//! Cells by which jobs of lanes are cancelled.

use jobs::CancelCell;
use s3_model::{OutOfMemory, Reason};
use std::alloc::{AllocError, Global};
use std::mem;

fn line(
    alloc: Global,
    before: Option<Reason>,
    one: Option<Reason>,
    two: Option<Reason>,
) -> Result<String, AllocError> {
    format!(in alloc; "cell {before:?}, {one:?}, {two:?}")
}

/// What two holders of a cell hear, each of which gives it a reason.
fn reasons_shown(
    alloc: Global,
    cell: &mut CancelCell,
    share: &mut CancelCell,
) -> Result<String, OutOfMemory> {
    let before = share.reason();
    cell.cancel(alloc, Reason::OutputFailed)?;
    share.cancel(alloc, Reason::TaskFailed)?;
    Ok(line(alloc, before, cell.reason(), share.reason())?)
}

/// What the holder of a cell and one that shares it hear.
fn shared_shown(alloc: Global, cell: &mut CancelCell) -> Result<String, OutOfMemory> {
    let mut share = cell.share()?;
    let shown = reasons_shown(alloc, cell, &mut share);
    mem::drop(share);
    shown
}

/// What two holders of a new cell hear.
pub(crate) fn cell_shown(alloc: Global) -> Result<String, OutOfMemory> {
    let mut cell = CancelCell::make(alloc)?;
    let shown = shared_shown(alloc, &mut cell);
    mem::drop(cell);
    shown
}
