//! Laws of pieces that are proper.
ghost use Rattle.source_validity.specs.KeptTables.ProperPieces.{CheckedPiecesAreProper, JoinedPiecesAreProper};

/// Pieces are proper in which each element has as many subscripts as its array has dimensions, no element of a table is set, and operators and labels have types of C.
pub fn joined_pieces_are_proper()
    ensures { JoinedPiecesAreProper }
{}

/// The pieces that a program without faults is expanded to are proper if operators and labels have types of C in them.
pub fn checked_pieces_are_proper()
    ensures { CheckedPiecesAreProper }
{}
