//! The acts of a task, what comes of a call on files, and how far an act is.

use s3_model::Op;
use s3_outside::FileFault;

/// One thing that is done for a task: a job that is given to a lane, or a call on local files. Parts and ranges are
/// numbered from 1; the number of what is not in parts is 0.
#[derive(Clone, Copy, Debug, PartialEq, Eq)]
pub enum Act {
    /// The job of that op and number is given.
    Send { op: Op, number: u32 },
    /// The bytes of the file that a job sends are read.
    Read { number: u32 },
    /// The temporary file is made.
    Assemble,
    /// The bytes that came are written to their place.
    Place { number: u32 },
    /// The temporary file takes the place of the destination.
    Rename,
    DropTemp,
    /// The file is removed.
    Remove,
    /// The time of the destination is set.
    Stamp,
}

/// What came of a call on files.
#[derive(Clone, Copy, Debug, PartialEq, Eq)]
pub enum FileCame {
    Fine,
    /// The file gave fewer bytes than its size.
    Short,
    Fault(FileFault),
}

/// How far an act is.
#[derive(Clone, Copy, Debug, PartialEq, Eq)]
pub enum Stage {
    /// It was not given.
    Waiting,
    /// It was given and has not come back.
    Out,
    /// Its job came cut short, and is kept to be given again.
    Kept,
    /// Its job was given again and has not come back.
    Again,
    /// It came back and did what it was to do.
    Fine,
    /// It came back and did not.
    Failed,
}
