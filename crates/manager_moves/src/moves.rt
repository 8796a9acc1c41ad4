//! What a run does next.

use s3_model::Op;

/// The next thing that is done in a run of many tasks. Tasks and lanes are numbered from 0, pieces as the acts of their
/// task are.
#[derive(Clone, Copy)]
pub enum Move {
    /// The state of that task is made.
    Make(u32),
    /// A job of that task goes to that lane.
    Give {
        task: u32,
        op: Op,
        number: u32,
        lane: u32,
    },
    /// The bytes of a piece are read into a part.
    Read {
        task: u32,
        number: u32,
    },
    /// The bytes of a piece that came are written.
    Place {
        task: u32,
        number: u32,
    },
    /// The temporary file is made.
    Assemble {
        task: u32,
        number: u32,
    },
    /// The temporary file takes the place of the destination.
    Rename {
        task: u32,
        number: u32,
    },
    /// The temporary file is dropped.
    DropTemp {
        task: u32,
        number: u32,
    },
    /// The file is removed.
    Remove {
        task: u32,
        number: u32,
    },
    /// The time of the destination is set.
    Stamp {
        task: u32,
        number: u32,
    },
    /// The line of that task is printed.
    Line(u32),
    /// An outcome is waited for.
    Wait,
    End,
}
