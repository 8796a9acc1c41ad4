//! What a task is to do.

ghost use Rattle.std.specs.Prelude.{◌≡◌};
ghost use Rattle.job_terms.specs.Ops.{is_op};
ghost use Rattle.task_acts.specs.Work.{first_number, piece_op};

use s3_model::{Kind, Op};

/// What the acts of a task depend on.
#[derive(Clone, Copy, Debug, PartialEq, Eq)]
pub struct Work {
    pub of_kind: Kind,
    pub moves: bool,
    /// It goes in one request.
    pub small: bool,
    /// In bytes.
    pub size: u64,
    /// The length of a piece, in bytes.
    pub piece: u64,
    /// How many pieces there are.
    pub count: u32,
    /// How many attempts a job has at most.
    pub attempts: u32,
}

impl Work {
    /// The op of the requests of a piece.
    pub fn piece_op(&self) -> Op
        ensures { result ≡ piece_op self.now.of_kind self.now.small }
    {
        match (self.of_kind, self.small) {
            (Kind::Upload, true) => Op::Put,
            (Kind::Upload, false) => Op::Part,
            (Kind::Download, _) => Op::Get,
            (Kind::Copy, true) => Op::Copy,
            (Kind::Copy, false) => Op::PartCopy,
            (Kind::RemoveObject | Kind::RemoveFile, _) => Op::Delete,
        }
    }

    /// Whether an op is that of the requests of a piece.
    pub fn has_piece_op(&self, op: Op) -> bool
        ensures { result ≡ is_op op (piece_op self.now.of_kind self.now.small) }
    {
        op == self.piece_op()
    }

    /// The number of the first piece: 0 where there is one alone, else 1.
    pub fn first_number(&self) -> u32
        ensures { result ≡ first_number self.now }
    {
        if self.small { 0 } else { 1 }
    }
}
