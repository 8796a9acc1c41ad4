//! The acts of all pieces of a task.

ghost use Rattle.std.specs.Prelude.{◌≡◌, ◌<◌, ◌+◌, ◌^◌, true, get_or, length, not, replicate, set, IfOk};
ghost use Rattle.std.specs.List.{list_all, position};
ghost use Rattle.piece_stages.specs.Pieces.{
  can_place,
  can_read,
  can_send,
  is_busy,
  is_placed,
  is_sent,
  no_piece,
  one_if,
};

use crate::piece::PieceStages;
use number_sets::NumberSet;
use std::alloc::{AllocError, Global};
use std::marker::Model;

/// How far the acts of each piece of a task are. Beside them stand the sets of the pieces that may be read, sent and
/// written next, and how many were sent, written, and are out: so no call goes over the pieces, but `make`.
///
/// Contracts see the stages of each piece, and whether pieces are read before they are sent.
#[derive(Drop)]
pub struct Pieces {
    stages: Vec<PieceStages>,
    reads_first: bool,
    reads: NumberSet,
    sends: NumberSet,
    places: NumberSet,
    sent: usize,
    placed: usize,
    busy: usize,
}

impl Model for Pieces {
    ghost use Rattle.piece_stages.specs.Pieces.{HasIndex, SeenPieces};

    ghost Value = { SeenPieces };

    ghost view = { λ p. record { stages = p.stages.items; reads_first = p.reads_first } };

    ghost invariant = { λ p.
        HasIndex p.reads_first p.stages.items p.reads p.sends p.places p.sent p.placed p.busy };
}

/// How many are counted where one changes.
fn recount(count: usize, was: bool, is: bool) -> usize
    requires counted { was ≡ true → 0 < count }
    requires few { count < 2 ^ 32 }
    ensures { result + one_if was ≡ count + one_if is }
{
    match (was, is) {
        (true, false) => count - 1,
        (false, true) => count + 1,
        _ => count,
    }
}

fn empty_or_all(alloc: Global, count: u32, is_all: bool) -> Result<NumberSet, AllocError>
    ensures { IfOk result (λ set. set ≡ replicate count is_all) }
{
    if is_all {
        NumberSet::all(alloc, count)
    } else {
        NumberSet::make(alloc, count)
    }
}

impl Pieces {
    /// Pieces of which nothing was given. It takes all the memory that they need.
    pub fn make(alloc: Global, count: u32, reads_first: bool) -> Result<Pieces, AllocError>
        ensures { IfOk result (λ pieces.
            pieces ≡ record { stages = replicate count no_piece; reads_first = reads_first }) }
    {
        let stages = vec![in alloc; PieceStages::none(); count as usize]?;
        let reads = NumberSet::all(alloc, count)?;
        let sends = empty_or_all(alloc, count, !reads_first)?;
        let places = NumberSet::make(alloc, count)?;
        Ok(Pieces {
            stages,
            reads_first,
            reads,
            sends,
            places,
            sent: 0,
            placed: 0,
            busy: 0,
        })
    }

    /// How far the acts of a piece are.
    pub fn get(&self, index: u32) -> PieceStages
        requires { index < length self.now.stages }
        ensures { result ≡ get_or self.now.stages index no_piece }
    {
        self.stages[index as usize]
    }

    /// The acts of a piece are so far now.
    pub fn put(&mut self, index: u32, piece: PieceStages)
        requires { index < length self.old.stages }
        ensures { self.new ≡ record self.old { stages = set self.old.stages index piece } }
    {
        let before = self.get(index);
        self.sent = recount(self.sent, before.is_sent(), piece.is_sent());
        self.placed = recount(self.placed, before.is_placed(), piece.is_placed());
        self.busy = recount(self.busy, before.is_busy(), piece.is_busy());
        self.reads.put(index, piece.can_read());
        self.sends.put(index, piece.can_send(self.reads_first));
        self.places.put(index, piece.can_place());
        self.stages[index as usize] = piece;
    }

    /// The first piece that may be read.
    pub fn first_read(&self) -> Option<u32>
        ensures { result ≡ position can_read self.now.stages }
    {
        self.reads.first()
    }

    /// The first piece that may be sent, as far as the piece itself tells.
    pub fn first_send(&self) -> Option<u32>
        ensures { result ≡ position (can_send self.now.reads_first) self.now.stages }
    {
        self.sends.first()
    }

    /// The first piece that came and may be written.
    pub fn first_place(&self) -> Option<u32>
        ensures { result ≡ position can_place self.now.stages }
    {
        self.places.first()
    }

    /// Whether the request of each piece came with success.
    pub fn is_each_sent(&self) -> bool
        ensures { result ≡ list_all is_sent self.now.stages }
    {
        self.sent == self.stages.len()
    }

    /// Whether each piece was written.
    pub fn is_each_placed(&self) -> bool
        ensures { result ≡ list_all is_placed self.now.stages }
    {
        self.placed == self.stages.len()
    }

    /// Whether no act of a piece is out.
    pub fn is_idle(&self) -> bool
        ensures { result ≡ list_all (λ piece. not (is_busy piece)) self.now.stages }
    {
        self.busy == 0
    }
}
