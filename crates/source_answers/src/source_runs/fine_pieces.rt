//! Laws of the pieces of expanded programs.
ghost use Rattle.source_answers.specs.SourceRuns.FinePieces.{ApartMarksDiffer, ExpandedPiecesAreFine, ExpandedPiecesKeepBegun, SoundPiecesAreFine, SoundPiecesAreTyped, SourcePiecesAreFine};

/// No block begins at the point of another mark, where no point stands twice among the pieces.
pub fn apart_marks_differ()
    ensures { ApartMarksDiffer }
{}

/// Blocks of an expanded program begin at points that are kept, and no other mark has one of them.
pub fn expanded_pieces_keep_begun()
    ensures { ExpandedPiecesKeepBegun }
{}

/// The pieces of an expanded program are as all passes ask, where their expressions have the types of what they name.
pub fn expanded_pieces_are_fine()
    ensures { ExpandedPiecesAreFine }
{}

/// The expressions of an expanded program have the types of what they name, where names stand for objects as elaboration makes them.
pub fn sound_pieces_are_typed()
    ensures { SoundPiecesAreTyped }
{}

/// So the pieces of such a program are as all passes ask.
pub fn sound_pieces_are_fine()
    ensures { SoundPiecesAreFine }
{}

/// So are those of the program that a source is, where it has no fault and its tokens have numbers and types of C.
pub fn source_pieces_are_fine()
    ensures { SourcePiecesAreFine }
{}
