//! Plans as text.

use s3_model::{KeySkip, Kind, Place, Plan, PlanFault, Task, Text, Warning};
use std::alloc::{AllocError, Global};

pub(crate) fn kind_name(kind: Kind) -> &'static str {
    match kind {
        Kind::Upload => "upload",
        Kind::Download => "download",
        Kind::Copy => "copy",
        Kind::RemoveObject | Kind::RemoveFile => "delete",
    }
}

pub(crate) fn push_place(out: &mut String, place: &Place) -> Result<(), AllocError> {
    match place {
        Place::Object { bucket, key } => write!(out, "{}:{}", bucket.as_str(), key.as_str()),
        Place::File { path } => out.push_str(path.as_str()),
    }
}

/// Adds the source, where there is one.
fn push_source(out: &mut String, source: &Option<Place>) -> Result<(), AllocError> {
    match source {
        Some(source) => {
            push_place(out, source)?;
            out.push_str(" > ")
        }
        None => Ok(()),
    }
}

fn push_found(out: &mut String, task: &Task) -> Result<(), AllocError> {
    write!(out, " {} {} {}", task.size, task.micros, task.etag.as_str())
}

fn push_content(out: &mut String, content: &Option<Text>) -> Result<(), AllocError> {
    match content {
        Some(content) => write!(out, " {}", content.as_str()),
        None => Ok(()),
    }
}

fn push_kind(out: &mut String, task: &Task) -> Result<(), AllocError> {
    let moves = if task.moves { "move " } else { "" };
    write!(out, "{moves}{} ", kind_name(task.kind))
}

fn push_task(out: &mut String, task: &Task) -> Result<(), AllocError> {
    push_kind(out, task)?;
    push_source(out, &task.source)?;
    push_place(out, &task.dest)?;
    push_found(out, task)?;
    push_content(out, &task.content)?;
    out.push_str(if task.fresh { " fresh" } else { "" })
}

fn push_skipped(out: &mut String, place: &Place, why: KeySkip) -> Result<(), AllocError> {
    out.push_str("skip ")?;
    push_place(out, place)?;
    write!(out, " {why:?}")
}

fn push_warning(out: &mut String, warning: &Warning) -> Result<(), AllocError> {
    match warning {
        Warning::Skipped { place, why } => push_skipped(out, place, *why),
        _ => out.push_str("another warning"),
    }
}

fn push_mark(out: &mut String) -> Result<(), AllocError> {
    if out.is_empty() {
        Ok(())
    } else {
        out.push_str("; ")
    }
}

fn push_tasks(out: &mut String, tasks: &[Task]) -> Result<(), AllocError> {
    for task in tasks {
        push_mark(out)?;
        push_task(out, task)?;
    }
    Ok(())
}

fn push_warnings(out: &mut String, warnings: &[Warning]) -> Result<(), AllocError> {
    for warning in warnings {
        push_mark(out)?;
        push_warning(out, warning)?;
    }
    Ok(())
}

/// The tasks, and behind them the warnings.
fn plan_shown(alloc: Global, plan: &Plan) -> Result<String, AllocError> {
    let mut shown = String::new(alloc);
    push_tasks(&mut shown, plan.tasks.as_slice())?;
    push_warnings(&mut shown, plan.warnings.as_slice())?;
    Ok(shown)
}

pub(crate) fn push_plan(alloc: Global, out: &mut String, plan: &Plan) -> Result<(), AllocError> {
    let shown = plan_shown(alloc, plan)?;
    out.push_str(shown.as_str())
}

pub(crate) fn push_fault(out: &mut String, fault: &PlanFault) -> Result<(), AllocError> {
    match fault {
        PlanFault::TooLarge { path, size } => write!(out, "TooLarge {} {size}", path.as_str()),
        PlanFault::Overlap(key) => write!(out, "Overlap {}", key.as_str()),
        PlanFault::TooMany => out.push_str("TooMany"),
        _ => out.push_str("another fault"),
    }
}
