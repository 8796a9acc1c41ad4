//! What came of calls on files, and reasons.

use s3_model::Reason;
use s3_outside::FileFault;
use task_acts::FileCame;

/// What came of a call on files: `fine`, `short`, `fault`, `memory` or `blocked/LENGTH`.
pub fn file_came(word: &str) -> Option<FileCame> {
    match word {
        "fine" => Some(FileCame::Fine),
        "short" => Some(FileCame::Short),
        "fault" => Some(FileCame::Fault(FileFault::Failed)),
        "memory" => Some(FileCame::Fault(FileFault::Memory)),
        _ => {
            let length = word.strip_prefix("blocked/")?.parse().ok()?;
            Some(FileCame::Fault(FileFault::Blocked { length }))
        }
    }
}

/// The reason of a cancel, by its name.
pub fn reason_of(word: &str) -> Option<Reason> {
    match word {
        "TaskFailed" => Some(Reason::TaskFailed),
        "OutputFailed" => Some(Reason::OutputFailed),
        "ListingEnded" => Some(Reason::ListingEnded),
        "OutOfMemory" => Some(Reason::OutOfMemory),
        _ => None,
    }
}
