//! Notes of calls on files.

ghost use Rattle.std.specs.Prelude.{◌≡◌, IfOk};
ghost use Rattle.s3_outside.specs.FileCalls.{path_of};

use s3_model::{OutOfMemory, Text};
use s3_outside::{Content, Failed, FileFault, FileNote, Shape, Temp};
use std::alloc::Global;

pub(crate) fn kind_note(
    alloc: Global,
    path: &str,
    answer: Result<Shape, Failed>,
) -> Result<FileNote, OutOfMemory>
    ensures { IfOk result (λ note. note ≡ FileNote.Kind path.now answer) }
{
    let path = Text::of(alloc, path)?;
    Ok(FileNote::Kind { path, answer })
}

pub(crate) fn read_note(
    alloc: Global,
    path: &str,
    at: u64,
    room: usize,
    answer: Result<usize, Failed>,
) -> Result<FileNote, OutOfMemory>
    ensures { IfOk result (λ note. note ≡ FileNote.ReadAt path.now at room answer) }
{
    let path = Text::of(alloc, path)?;
    Ok(FileNote::ReadAt {
        path,
        at,
        room,
        answer,
    })
}

pub(crate) fn names_note(
    alloc: Global,
    folder: &str,
    fault: Option<FileFault>,
) -> Result<FileNote, OutOfMemory>
    ensures { IfOk result (λ note. note ≡ FileNote.Names folder.now fault) }
{
    let folder = Text::of(alloc, folder)?;
    Ok(FileNote::Names { folder, fault })
}

pub(crate) fn make_note(
    alloc: Global,
    dest: &str,
    answer: &Result<Temp, FileFault>,
) -> Result<FileNote, OutOfMemory>
    ensures { IfOk result (λ note. note ≡ FileNote.MakeTemp dest.now (path_of answer.now)) }
{
    let dest = Text::of(alloc, dest)?;
    let answer = match answer {
        Ok(temp) => Ok(temp.path.copy()?),
        Err(fault) => Err(*fault),
    };
    Ok(FileNote::MakeTemp { dest, answer })
}

pub(crate) fn write_note(
    alloc: Global,
    temp: &str,
    at: u64,
    bytes: &[u8],
    answer: Result<(), Failed>,
) -> Result<FileNote, OutOfMemory>
    ensures { IfOk result (λ note. note ≡ FileNote.WriteAt temp.now at bytes.now answer) }
{
    let temp = Text::of(alloc, temp)?;
    let bytes = Content::of(alloc, bytes)?;
    Ok(FileNote::WriteAt {
        temp,
        at,
        bytes,
        answer,
    })
}

pub(crate) fn rename_note(
    alloc: Global,
    temp: &str,
    dest: &str,
    answer: Result<(), FileFault>,
) -> Result<FileNote, OutOfMemory>
    ensures { IfOk result (λ note. note ≡ FileNote.Rename temp.now dest.now answer) }
{
    let temp = Text::of(alloc, temp)?;
    let dest = Text::of(alloc, dest)?;
    Ok(FileNote::Rename { temp, dest, answer })
}

pub(crate) fn drop_note(
    alloc: Global,
    temp: &str,
    answer: Result<(), Failed>,
) -> Result<FileNote, OutOfMemory>
    ensures { IfOk result (λ note. note ≡ FileNote.DropTemp temp.now answer) }
{
    let temp = Text::of(alloc, temp)?;
    Ok(FileNote::DropTemp { temp, answer })
}

pub(crate) fn remove_note(
    alloc: Global,
    path: &str,
    answer: Result<(), Failed>,
) -> Result<FileNote, OutOfMemory>
    ensures { IfOk result (λ note. note ≡ FileNote.Remove path.now answer) }
{
    let path = Text::of(alloc, path)?;
    Ok(FileNote::Remove { path, answer })
}

pub(crate) fn stamp_note(
    alloc: Global,
    path: &str,
    micros: u64,
    answer: Result<(), Failed>,
) -> Result<FileNote, OutOfMemory>
    ensures { IfOk result (λ note. note ≡ FileNote.Stamp path.now micros answer) }
{
    let path = Text::of(alloc, path)?;
    Ok(FileNote::Stamp {
        path,
        micros,
        answer,
    })
}
