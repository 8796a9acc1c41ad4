//! The acts of one piece.

ghost use Rattle.std.specs.Prelude.{◌≡◌};
ghost use Rattle.piece_stages.specs.Pieces.{can_place, can_read, can_send, is_busy, is_placed, is_sent, no_piece};

use crate::stages::{has_done, is_out, may_be_given};
use task_acts::Stage;

/// How far the acts of one piece are: the reading of its bytes, its request, and the writing of what came.
#[derive(Clone, Copy)]
pub struct PieceStages {
    pub read: Stage,
    pub send: Stage,
    pub place: Stage,
}

impl PieceStages {
    /// Nothing was given.
    pub fn none() -> PieceStages
        ensures { result ≡ no_piece }
    {
        PieceStages {
            read: Stage::Waiting,
            send: Stage::Waiting,
            place: Stage::Waiting,
        }
    }

    pub(crate) fn can_read(&self) -> bool
        ensures { result ≡ can_read self.now }
    {
        may_be_given(self.read)
    }

    /// Where pieces are read before they are sent, this one was.
    pub(crate) fn can_send(&self, reads_first: bool) -> bool
        ensures { result ≡ can_send reads_first self.now }
    {
        may_be_given(self.send) && (!reads_first || has_done(self.read))
    }

    pub(crate) fn can_place(&self) -> bool
        ensures { result ≡ can_place self.now }
    {
        may_be_given(self.place) && has_done(self.send)
    }

    pub(crate) fn is_sent(&self) -> bool
        ensures { result ≡ is_sent self.now }
    {
        has_done(self.send)
    }

    pub(crate) fn is_placed(&self) -> bool
        ensures { result ≡ is_placed self.now }
    {
        has_done(self.place)
    }

    /// Whether some act of it is out.
    pub(crate) fn is_busy(&self) -> bool
        ensures { result ≡ is_busy self.now }
    {
        is_out(self.read) || is_out(self.send) || is_out(self.place)
    }
}
