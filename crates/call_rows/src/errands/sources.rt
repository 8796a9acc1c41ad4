//! What local sources come to.

use crate::errands::shown::push_entries;
use crate::lines::{number, parted, push_value, word_and_rest};
use command_errands::{LocalSource, local_source, single_file};
use s3_model::PlanFault;
use s3_outside::Shape;
use std::alloc::{AllocError, Global};

fn shape_of(word: &str) -> Shape {
    match word {
        "absent" => Shape::Absent,
        "folder" => Shape::Folder,
        "other" => Shape::Other,
        file => {
            let (size, micros) = parted(file, ",");
            Shape::File {
                size: number(size),
                micros: number(micros),
            }
        }
    }
}

fn push_refused(out: &mut String, fault: &PlanFault) -> Result<(), AllocError> {
    match fault {
        PlanFault::NoSource(path) => write!(out, "NoSource {}", path.as_str()),
        PlanFault::IsFolder(path) => write!(out, "IsFolder {}", path.as_str()),
        PlanFault::NotFolder(path) => write!(out, "NotFolder {}", path.as_str()),
        _ => out.push_str("another fault"),
    }
}

fn push_found(alloc: Global, out: &mut String, source: LocalSource) -> Result<(), AllocError> {
    match source {
        LocalSource::Refused(fault) => push_refused(out, &fault),
        LocalSource::NotAFile(path) => write!(out, "NotAFile {}", path.as_str()),
        LocalSource::File(entry) => push_entries(out, single_file(alloc, entry)),
        LocalSource::Folder => out.push_str("Folder"),
    }
}

pub(crate) fn push_source(alloc: Global, out: &mut String, line: &str) -> Result<(), AllocError> {
    let (how, line) = word_and_rest(line);
    let (path, shape) = word_and_rest(line);
    match local_source(alloc, path, how == "many", shape_of(shape)) {
        Ok(source) => push_found(alloc, out, source),
        Err(why) => push_value(out, why),
    }
}
