//! Laws of the points and branches of expanded programs.
ghost use Rattle.expanded_pieces.specs.BegunPieces.{ExpandedPiecesBeginAtTheirPoints, ExpandedPiecesBeginWell, ExpandedPiecesHaveAPoint, TypedPiecesSuit};

/// Blocks of an expanded program begin at marks, and a variable that is set before a fork is not read in a branch before it is set there too.
pub fn expanded_pieces_begin_well()
    ensures { ExpandedPiecesBeginWell }
{}

/// The same where the points at which blocks begin are kept, and no other mark has one of them.
pub fn expanded_pieces_begin_at_their_points()
    ensures { ExpandedPiecesBeginAtTheirPoints }
{}

/// An expanded program begins at the point of its top function.
pub fn expanded_pieces_have_a_point()
    ensures { ExpandedPiecesHaveAPoint }
{}

/// Pieces that begin well suit lowering where their expressions have the types of what they name.
pub fn typed_pieces_suit()
    ensures { TypedPiecesSuit }
{}
