//! The acts that a line names.

use s3_model::Op;
use task_acts::Act;

/// An act, and what a line says came of it.
#[derive(Clone, Copy)]
pub(crate) struct Told<'a> {
    pub act: Act,
    pub came: &'a str,
}

fn single_act(name: &str) -> Option<Act> {
    match name {
        "Assemble" => Some(Act::Assemble),
        "Rename" => Some(Act::Rename),
        "DropTemp" => Some(Act::DropTemp),
        "Remove" => Some(Act::Remove),
        "Stamp" => Some(Act::Stamp),
        _ => None,
    }
}

fn op_of(name: &str) -> Option<Op> {
    match name {
        "Get" => Some(Op::Get),
        "Put" => Some(Op::Put),
        "Copy" => Some(Op::Copy),
        "Delete" => Some(Op::Delete),
        "Create" => Some(Op::Create),
        "Part" => Some(Op::Part),
        "PartCopy" => Some(Op::PartCopy),
        "Complete" => Some(Op::Complete),
        "Abort" => Some(Op::Abort),
        _ => None,
    }
}

fn numbered_act(name: &str, number: u32) -> Option<Act> {
    match name {
        "Read" => Some(Act::Read { number }),
        "Place" => Some(Act::Place { number }),
        _ => Some(Act::Send {
            op: op_of(name)?,
            number,
        }),
    }
}

/// The act at the front of a happening.
pub(crate) fn told_act(text: &str) -> Option<Told<'_>> {
    let (name, came) = text.split_once(' ')?;
    if let Some(act) = single_act(name) {
        return Some(Told { act, came });
    }
    let (number, came) = came.split_once(' ')?;
    let act = numbered_act(name, number.parse().ok()?)?;
    Some(Told { act, came })
}
