//! The law that the pieces cover the object.

ghost use Rattle.chunk_plan.specs.Cover.{PiecesCoverTheObject, PiecesAreDetermined};

/// The pieces of a transfer are the bytes of its object, each once and in order. All but the last have one length, and
/// none is empty but that of an empty object. In parts, they keep the limits of the service. The configuration, the
/// limits and the size determine them.
pub fn pieces_cover_the_object()
    ensures cover { PiecesCoverTheObject }
    ensures determined { PiecesAreDetermined }
{}
