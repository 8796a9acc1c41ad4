//! The tasks of a row.

ghost use Rattle.std.specs.Prelude.{◌≡◌, ◌+◌, ◌++◌, ◌<◌, ◌≤◌, None, false, IfOk, IfSome, OnOk, length};
ghost use Rattle.std.specs.Fmt.{decimal};
ghost use Rattle.sync_plan.specs.Fit.{IsFit};
ghost use Rattle.run_scripts.specs.Tasks.{AreTasks, EachReplaces, GoesFrom, GoesTo, IsFile, IsObject, IsTaskOf, can_move};

use row_words::{Wish, wish_of};
use s3_model::{Kind, OutOfMemory, Place, Task, Tasks, Text};
use std::alloc::Global;
use std::mem;

/// The most tasks of a plan.
const MOST_TASKS: usize = 1_000_000;

fn can_move(kind: Kind) -> bool
    ensures { result ≡ can_move kind }
{
    !matches!(kind, Kind::RemoveObject | Kind::RemoveFile)
}

fn named(alloc: Global, word: &str, number: u32) -> Result<Text, OutOfMemory>
    ensures { IfOk result (λ name. name ≡ word.now ++ decimal number) }
{
    Ok(Text::from(format!(in alloc; "{word}{number}")?))
}

fn file(alloc: Global, word: &str, number: u32) -> Result<Place, OutOfMemory>
    ensures { IfOk result (IsFile (word.now ++ decimal number)) }
{
    Ok(Place::File {
        path: named(alloc, word, number)?,
    })
}

fn object(alloc: Global, word: &str, number: u32) -> Result<Place, OutOfMemory>
    ensures { IfOk result (IsObject (word.now ++ decimal number)) }
{
    let bucket = Text::of(alloc, "b")?;
    let key = named(alloc, word, number)?;
    Ok(Place::Object { bucket, key })
}

fn source_of(alloc: Global, kind: Kind, number: u32) -> Result<Option<Place>, OutOfMemory>
    ensures { IfOk result (GoesFrom number kind) }
{
    match kind {
        Kind::Upload => Ok(Some(file(alloc, "from", number)?)),
        Kind::Download => Ok(Some(object(alloc, "from", number)?)),
        Kind::Copy => Ok(Some(object(alloc, "from", number)?)),
        Kind::RemoveObject => Ok(None),
        Kind::RemoveFile => Ok(None),
    }
}

fn dest_of(alloc: Global, kind: Kind, number: u32) -> Result<Place, OutOfMemory>
    ensures { IfOk result (GoesTo number kind) }
{
    match kind {
        Kind::Upload => object(alloc, "to", number),
        Kind::Download => file(alloc, "to", number),
        Kind::Copy => object(alloc, "to", number),
        Kind::RemoveObject => object(alloc, "to", number),
        Kind::RemoveFile => file(alloc, "to", number),
    }
}

/// Whether the source goes.
fn moves_of(wish: Wish) -> bool
    ensures { can_move wish.kind ≡ false → result ≡ false }
{
    if can_move(wish.kind) {
        wish.moves
    } else {
        false
    }
}

/// Where a task goes from and to.
fn places_of(alloc: Global, kind: Kind, number: u32) -> Result<(Option<Place>, Place), OutOfMemory>
    ensures from { IfOk result (λ places. GoesFrom number kind places.0) }
    ensures to { IfOk result (λ places. GoesTo number kind places.1) }
{
    let source = source_of(alloc, kind, number)?;
    match dest_of(alloc, kind, number) {
        Ok(dest) => Ok((source, dest)),
        Err(OutOfMemory) => {
            mem::drop(source);
            Err(OutOfMemory)
        }
    }
}

fn task_with(wish: Wish, source: Option<Place>, dest: Place, etag: Text) -> Task
    ensures kind { result.kind ≡ wish.kind }
    ensures moves { can_move wish.kind ≡ false → result.moves ≡ false }
    ensures source { result.source ≡ source }
    ensures dest { result.dest ≡ dest }
    ensures size { result.size ≡ wish.size }
    ensures etag { result.etag ≡ etag }
    ensures micros { result.micros ≡ 0 }
    ensures content { result.content ≡ None }
    ensures fresh { result.fresh ≡ false }
{
    let moves = moves_of(wish);
    Task {
        kind: wish.kind,
        moves,
        source,
        dest,
        size: wish.size,
        etag,
        micros: 0,
        content: None,
        fresh: false,
    }
}

fn task_of(alloc: Global, wish: Wish, number: u32) -> Result<Task, OutOfMemory>
    requires { wish.size ≤ 256 }
    ensures { IfOk result (IsTaskOf 256 number) }
{
    let (source, dest) = places_of(alloc, wish.kind, number)?;
    match Text::of(alloc, "e") {
        Ok(etag) => Ok(task_with(wish, source, dest, etag)),
        Err(_) => {
            mem::drop(source);
            mem::drop(dest);
            Err(OutOfMemory)
        }
    }
}

/// Puts a task behind the others.
fn push(tasks: &mut Tasks, task: Task)
    requires room { 0 < tasks.old.spare }
    requires tasks { AreTasks 256 tasks.old.items }
    requires task { IsTaskOf 256 (length tasks.old.items) task }
    ensures tasks { AreTasks 256 tasks.new.items }
    ensures count { length tasks.new.items ≡ length tasks.old.items + 1 }
{
    tasks.push(task);
}

/// Puts the next task behind the others, if there is room for it.
fn push_next(alloc: Global, tasks: &mut Tasks, wish: Wish) -> Result<(), OutOfMemory>
    requires tasks { AreTasks 256 tasks.old.items }
    requires few { length tasks.old.items ≤ 1000000 }
    requires size { wish.size ≤ 256 }
    ensures tasks { OnOk result (AreTasks 256 tasks.new.items) }
    ensures few { OnOk result (length tasks.new.items ≤ 1000000) }
{
    if tasks.len() >= MOST_TASKS {
        return Ok(());
    }
    tasks.reserve(1)?;
    match task_of(alloc, wish, tasks.len() as u32) {
        Ok(task) => {
            push(tasks, task);
            Ok(())
        }
        Err(OutOfMemory) => Err(OutOfMemory),
    }
}

/// Puts as many tasks behind the others as are wished for and have room.
fn push_each(alloc: Global, tasks: &mut Tasks, count: u32, wish: Wish) -> Result<(), OutOfMemory>
    requires tasks { AreTasks 256 tasks.old.items }
    requires few { length tasks.old.items ≤ 1000000 }
    requires size { wish.size ≤ 256 }
    ensures tasks { OnOk result (AreTasks 256 tasks.new.items) }
    ensures few { OnOk result (length tasks.new.items ≤ 1000000) }
{
    for _ in 0..count {
        push_next(alloc, tasks, wish)?;
    }
    Ok(())
}

/// `COUNT times` and a wish, or a wish alone.
fn counted_wish(text: &str) -> Option<(u32, Wish)>
    ensures { IfSome result (λ counted. counted.1.size ≤ 256) }
{
    let (count, text) = match text.split_once(" times ") {
        Some((count, rest)) => (count.parse().ok()?, rest),
        None => (1, text),
    };
    let wish = wish_of(text)?;
    Some((count, wish))
}

fn push_named(alloc: Global, tasks: &mut Tasks, text: &str) -> Result<bool, OutOfMemory>
    requires tasks { AreTasks 256 tasks.old.items }
    requires few { length tasks.old.items ≤ 1000000 }
    ensures tasks { OnOk result (AreTasks 256 tasks.new.items) }
    ensures few { OnOk result (length tasks.new.items ≤ 1000000) }
{
    match counted_wish(text) {
        Some((count, wish)) => {
            push_each(alloc, tasks, count, wish)?;
            Ok(true)
        }
        None => Ok(false),
    }
}

/// The tasks that the words of a row name, with commas between. None where one is not understood.
pub fn read_tasks(alloc: Global, text: &str) -> Result<Option<Tasks>, OutOfMemory>
    ensures fit { IfOk result (λ tasks. IfSome tasks (λ t. IsFit 256 t.items)) }
    ensures replace { IfOk result (λ tasks. IfSome tasks (λ t. EachReplaces t.items)) }
{
    let mut tasks = Tasks::make(alloc);
    for word in text.split(", ") {
        match push_named(alloc, &mut tasks, word) {
            Ok(true) => {}
            Ok(false) => return Ok(None),
            Err(OutOfMemory) => return Err(OutOfMemory),
        }
    }
    Ok(Some(tasks))
}
