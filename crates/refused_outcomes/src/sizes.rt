//! Sizes that the laws let through.

ghost use Rattle.refused_outcomes.specs.LargePieces.{LargePiecesAreMet};

/// The laws ask of a configuration only that its threshold is at least 1: a run with pieces of 2^35 bytes, which no
/// valid configuration has, is what they ask of one.
pub fn large_pieces()
    ensures { LargePiecesAreMet }
{}
