//! Lines, and what is printed of them.

use crate::tasks::acts::{Told, told_act};
use crate::tasks::driver::Driver;
use crate::tasks::works::work_named;
use row_words::{file_came, reason_of};
use s3_model::{OutOfMemory, Texts};
use std::alloc::{AllocError, Global};
use std::mem;
use task_acts::Act;

fn upload_shown(alloc: Global, driver: &Driver) -> Result<String, AllocError> {
    match driver.upload() {
        Some(upload) => String::from_str(alloc, upload.as_str()),
        None => String::from_str(alloc, "no upload"),
    }
}

fn texts_shown(alloc: Global, texts: &Texts) -> Result<String, AllocError> {
    let mut shown = String::from_str(alloc, "tags")?;
    for text in texts.as_slice() {
        shown.push_str(" ")?;
        shown.push_str(text.as_str())?;
    }
    Ok(shown)
}

fn tags_shown(alloc: Global, driver: &mut Driver) -> Result<String, AllocError> {
    match driver.tags() {
        Some(tags) => {
            let shown = texts_shown(alloc, &tags);
            mem::drop(tags);
            shown
        }
        None => String::from_str(alloc, "no tags"),
    }
}

fn again_shown(alloc: Global, had: u32, state: &str) -> Result<String, AllocError> {
    format!(in alloc; "after {had} {state}")
}

fn given_shown(alloc: Global, driver: &mut Driver) -> Result<String, AllocError> {
    let had = driver.give();
    let state = driver.shown(alloc)?;
    match had {
        Some(had) => again_shown(alloc, had, state.as_str()),
        None => Ok(state),
    }
}

fn failing_shown(alloc: Global, driver: &Driver) -> Result<String, AllocError> {
    format!(in alloc; "{}", driver.is_failing())
}

/// The job or the call on files comes back, with what is told of it.
fn returned(alloc: Global, driver: &mut Driver, told: Told<'_>) -> Result<bool, OutOfMemory> {
    match told.act {
        Act::Send { op, number } => driver.return_job(alloc, op, number, told.came),
        act => match file_came(told.came) {
            Some(came) => Ok(driver.return_call(act, came)),
            None => Ok(false),
        },
    }
}

fn cancelled(driver: &mut Driver, word: &str) -> bool {
    match reason_of(word) {
        Some(reason) => {
            driver.cancel(reason);
            true
        }
        None => false,
    }
}

/// What comes of a happening that is an act with what came of it, or a cancel.
fn came(alloc: Global, driver: &mut Driver, text: &str) -> Result<bool, OutOfMemory> {
    if let Some(word) = text.strip_prefix("cancel ") {
        return Ok(cancelled(driver, word));
    }
    match told_act(text) {
        Some(told) => returned(alloc, driver, told),
        None => Ok(false),
    }
}

/// The state of the task behind a happening that came, or that it cannot come.
fn came_shown(alloc: Global, driver: &mut Driver, text: &str) -> Result<String, AllocError> {
    match came(alloc, driver, text) {
        Ok(true) => driver.shown(alloc),
        Ok(false) => String::from_str(alloc, "not out"),
        Err(OutOfMemory) => Err(AllocError),
    }
}

fn happening_shown(alloc: Global, driver: &mut Driver, text: &str) -> Result<String, AllocError> {
    match text {
        "give" => given_shown(alloc, driver),
        "upload" => upload_shown(alloc, driver),
        "tags" => tags_shown(alloc, driver),
        "failing" => failing_shown(alloc, driver),
        _ => came_shown(alloc, driver, text),
    }
}

fn push_happening(
    alloc: Global,
    driver: &mut Driver,
    shown: &mut String,
    text: &str,
) -> Result<(), AllocError> {
    let happening = happening_shown(alloc, driver, text)?;
    shown.push_str(" | ")?;
    shown.push_str(happening.as_str())
}

/// The state of a task at the start, and behind each happening of the line.
fn history_shown(alloc: Global, driver: &mut Driver, line: &str) -> Result<String, AllocError> {
    let mut shown = driver.shown(alloc)?;
    for happening in line.split(" | ").skip(1) {
        push_happening(alloc, driver, &mut shown, happening)?;
    }
    Ok(shown)
}

/// The task that a line begins with, where it names one.
fn driver_named(alloc: Global, line: &str) -> Result<Option<Driver>, OutOfMemory> {
    let (work, _) = line.split_once(" | ").unwrap_or((line, ""));
    let Some(work) = work_named(alloc, work) else {
        return Ok(None);
    };
    match Driver::make(alloc, work) {
        Ok(driver) => Ok(Some(driver)),
        Err(OutOfMemory) => Err(OutOfMemory),
    }
}

/// What is printed of a line.
pub(crate) fn answer_of(alloc: Global, line: &str) -> Result<String, AllocError> {
    match driver_named(alloc, line) {
        Ok(Some(mut driver)) => {
            let shown = history_shown(alloc, &mut driver, line);
            mem::drop(driver);
            shown
        }
        Ok(None) => String::from_str(alloc, "no work"),
        Err(OutOfMemory) => Err(AllocError),
    }
}
