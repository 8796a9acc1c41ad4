//! The acts of a task.

ghost use Rattle.std.specs.Prelude.{◌≡◌, ◌<◌, ◌≤◌, ◌+◌, ◌^◌, if◌then◌else◌, length, not, IfOk};
ghost use Rattle.std.specs.List.{list_all, position};
ghost use Rattle.piece_stages.specs.Pieces.{can_place, can_read, can_send, is_busy, is_placed, is_sent};
ghost use Rattle.job_terms.specs.Ops.{is_op};
ghost use Rattle.task_acts.specs.declared.acts.Act.{Act};
ghost use Rattle.task_acts.specs.declared.acts.Stage.TheVariants as at;
ghost use Rattle.task_acts.specs.Histories.{is_act};
ghost use Rattle.task_acts.specs.Work.{first_number, piece_op};
ghost use Rattle.task_stages.specs.Stages.{
  HasAct,
  HasPiece,
  piece_at,
  piece_count,
  reads_first,
  removes,
  sent_at,
  stage_by,
  with_piece,
  with_stage,
};

use crate::singles::Singles;
use piece_stages::{PieceStages, Pieces};
use s3_model::{Kind, Op};
use std::alloc::{AllocError, Global};
use std::marker::Model;
use task_acts::{Act, Stage, Work};

/// How far each act of a task is.
///
/// Contracts see the work of the task, the stages of the acts that it has once, and those of each piece.
#[derive(Drop)]
pub struct TaskStages {
    work: Work,
    singles: Singles,
    pieces: Pieces,
}

impl Model for TaskStages {
    ghost use Rattle.std.specs.Prelude.{◌≡◌, length};
    ghost use Rattle.task_stages.specs.Stages.{IsWhole, SeenStages};

    ghost Value = { SeenStages };

    ghost view = { λ t. record { work = t.work; singles = t.singles; pieces = t.pieces.stages } };

    ghost invariant = { λ t. IsWhole t.work t.pieces };
}

fn removes(kind: Kind) -> bool
    ensures { result ≡ removes kind }
{
    matches!(kind, Kind::RemoveObject | Kind::RemoveFile)
}

/// Whether a piece is read before it is sent.
fn reads_first(kind: Kind) -> bool
    ensures { result ≡ reads_first kind }
{
    matches!(kind, Kind::Upload)
}

/// How many pieces are moved.
fn piece_count(work: &Work) -> u32
    ensures { result ≡ piece_count work.now }
{
    if removes(work.of_kind) { 0 } else { work.count }
}

impl TaskStages {
    /// A task of which nothing was given. It takes all the memory that its acts need.
    pub fn make(alloc: Global, work: Work) -> Result<TaskStages, AllocError>
        requires { work.count + 1 < 2 ^ 32 }
        ensures work { IfOk result (λ stages. stages.work ≡ work) }
        ensures pieces { IfOk result (λ stages. length stages.pieces ≡ piece_count work) }
        ensures waiting { IfOk result (λ stages. (of_act : Act) → stage_by stages of_act ≡ at.Waiting) }
    {
        let count = piece_count(&work);
        let pieces = Pieces::make(alloc, count, reads_first(work.of_kind))?;
        Ok(TaskStages {
            work,
            singles: Singles::none(),
            pieces,
        })
    }

    /// What the task is to do.
    pub fn work(&self) -> Work
        ensures work { result ≡ self.now.work }
        ensures pieces { length self.now.pieces ≡ piece_count self.now.work }
        ensures few { self.now.work.count + 1 < 2 ^ 32 }
    {
        self.work
    }

    /// How far the acts are that the task has once.
    pub fn singles(&self) -> Singles
        ensures { result ≡ self.now.singles }
    {
        self.singles
    }

    /// The first piece that may be read, counted from 0.
    pub fn first_read(&self) -> Option<u32>
        ensures { result ≡ position can_read self.now.pieces }
    {
        self.pieces.first_read()
    }

    /// The first piece that may be sent, as far as the piece itself tells, counted from 0.
    pub fn first_send(&self) -> Option<u32>
        ensures { result ≡ position (can_send (reads_first self.now.work.of_kind)) self.now.pieces }
    {
        self.pieces.first_send()
    }

    /// The first piece that came and may be written, counted from 0.
    pub fn first_place(&self) -> Option<u32>
        ensures { result ≡ position can_place self.now.pieces }
    {
        self.pieces.first_place()
    }

    /// Whether the request of each piece came with success.
    pub fn is_each_sent(&self) -> bool
        ensures { result ≡ list_all is_sent self.now.pieces }
    {
        self.pieces.is_each_sent()
    }

    /// Whether each piece was written.
    pub fn is_each_placed(&self) -> bool
        ensures { result ≡ list_all is_placed self.now.pieces }
    {
        self.pieces.is_each_placed()
    }

    /// Whether no act of a piece is out.
    pub fn are_pieces_idle(&self) -> bool
        ensures { result ≡ list_all (λ piece. not (is_busy piece)) self.now.pieces }
    {
        self.pieces.is_idle()
    }

    /// The number of the first piece.
    pub fn first_number(&self) -> u32
        ensures { result ≡ first_number self.now.work }
    {
        self.work.first_number()
    }

    /// Whether an op is that of the pieces' requests.
    pub fn is_piece_op(&self, op: Op) -> bool
        ensures { result ≡ is_op op (piece_op self.now.work.of_kind self.now.work.small) }
    {
        self.work.has_piece_op(op)
    }

    /// How far the acts of the piece of that number are; nothing was given where there is none.
    fn piece(&self, number: u32) -> PieceStages
        ensures { result ≡ piece_at self.now number }
    {
        let first = self.first_number();
        if number < first {
            return PieceStages::none();
        }
        if number - first >= piece_count(&self.work) {
            return PieceStages::none();
        }
        self.pieces.get(number - first)
    }

    /// How far the request of a piece is.
    fn piece_sent(&self, op: Op, number: u32) -> Stage
        ensures { result ≡ sent_at self.now op number }
    {
        if self.is_piece_op(op) {
            self.piece(number).send
        } else {
            Stage::Waiting
        }
    }

    /// How far a job is.
    fn sent(&self, op: Op, number: u32) -> Stage
        ensures { result ≡ stage_by self.now (Act.Send op number) }
    {
        match (op, number) {
            (Op::Create, 0) => self.singles.create,
            (Op::Complete, 0) => self.singles.complete,
            (Op::Abort, 0) => self.singles.abort,
            (Op::Delete, 0) => self.singles.delete,
            (Op::Put | Op::Part | Op::Get | Op::Copy | Op::PartCopy, _) => {
                self.piece_sent(op, number)
            }
            _ => Stage::Waiting,
        }
    }

    /// How far an act is.
    pub fn stage(&self, act: Act) -> Stage
        ensures { result ≡ stage_by self.now act }
    {
        match act {
            Act::Send { op, number } => self.sent(op, number),
            Act::Read { number } => self.piece(number).read,
            Act::Place { number } => self.piece(number).place,
            Act::Assemble => self.singles.assemble,
            Act::Rename => self.singles.rename,
            Act::DropTemp => self.singles.drop_temp,
            Act::Remove => self.singles.remove,
            Act::Stamp => self.singles.stamp,
        }
    }

    /// The acts of the piece of that number are so far now.
    fn put_piece(&mut self, number: u32, piece: PieceStages)
        requires { HasPiece self.old number }
        ensures { self.new ≡ with_piece self.old number piece }
    {
        let index = number - self.first_number();
        self.pieces.put(index, piece);
    }

    /// A job is so far now.
    fn put_sent(&mut self, op: Op, number: u32, stage: Stage)
        requires { HasAct self.old (Act.Send op number) }
        ensures { self.new ≡ with_stage self.old (Act.Send op number) stage }
    {
        match op {
            Op::Create => self.singles.create = stage,
            Op::Complete => self.singles.complete = stage,
            Op::Abort => self.singles.abort = stage,
            Op::Delete => self.singles.delete = stage,
            _ => {
                let piece = self.piece(number);
                self.put_piece(
                    number,
                    PieceStages {
                        send: stage,
                        ..piece
                    },
                );
            }
        }
    }

    fn put_read(&mut self, number: u32, stage: Stage)
        requires { HasPiece self.old number }
        ensures { self.new ≡ with_stage self.old (Act.Read number) stage }
    {
        let piece = self.piece(number);
        self.put_piece(
            number,
            PieceStages {
                read: stage,
                ..piece
            },
        );
    }

    fn put_place(&mut self, number: u32, stage: Stage)
        requires { HasPiece self.old number }
        ensures { self.new ≡ with_stage self.old (Act.Place number) stage }
    {
        let piece = self.piece(number);
        self.put_piece(
            number,
            PieceStages {
                place: stage,
                ..piece
            },
        );
    }

    fn put(&mut self, act: Act, stage: Stage)
        requires { HasAct self.old act }
        ensures { self.new ≡ with_stage self.old act stage }
    {
        match act {
            Act::Send { op, number } => self.put_sent(op, number, stage),
            Act::Read { number } => self.put_read(number, stage),
            Act::Place { number } => self.put_place(number, stage),
            Act::Assemble => self.singles.assemble = stage,
            Act::Rename => self.singles.rename = stage,
            Act::DropTemp => self.singles.drop_temp = stage,
            Act::Remove => self.singles.remove = stage,
            Act::Stamp => self.singles.stamp = stage,
        }
    }

    /// An act that the task has is so far now.
    #[tactic(auto, using(crate::proofs::Agreement::agrees, crate::proofs::Agreement::same_many))]
    pub fn set(&mut self, act: Act, stage: Stage)
        requires { HasAct self.old act }
        ensures work { self.new.work ≡ self.old.work }
        ensures pieces { length self.new.pieces ≡ length self.old.pieces }
        ensures stages { (other : Act) → stage_by self.new other ≡
            (if is_act other act then stage else stage_by self.old other) }
    {
        self.put(act, stage);
    }
}
