//! Laws of the types of expanded pieces.
ghost use Rattle.typed_pieces.specs.Laws.{ElaboratedHasTypes, ExpandedArraysHaveLengths, ExpandedPiecesAreTyped, GrammarHasTypes, TypedPiecesOperate, TypedPiecesSuit};

/// The expressions of an expanded program have the types of what they name and its labels those of their switches, where its core program has types of C.
pub fn expanded_pieces_are_typed()
    ensures { ExpandedPiecesAreTyped }
{}

/// Each array of an expanded program has a length at least.
pub fn expanded_arrays_have_lengths()
    ensures { ExpandedArraysHaveLengths }
{}

/// Pieces of such expressions suit the scope that lowering has for them.
pub fn typed_pieces_suit()
    ensures { TypedPiecesSuit }
{}

/// Such expressions have the types that C gives their operators, and labels are words of the promoted type of what is tested.
pub fn typed_pieces_operate()
    ensures { TypedPiecesOperate }
{}

/// The core program of a program with types of C has types of C.
pub fn elaborated_has_types()
    ensures { ElaboratedHasTypes }
{}

/// The types of a program that the grammar derives are types of C, where those of its tokens are.
pub fn grammar_has_types()
    ensures { GrammarHasTypes }
{}
