//! Laws of expanded programs.
ghost use Rattle.expanded_pieces.specs.Laws.{CheckedProgramsFit, ElaboratedJumpsFit, ElaboratedLengthsFit, ExpandedArraysAreShort, ExpandedIsWellFormed, ExpandedPiecesFit, GrammarBeginsLoops};

/// The jumps of an expanded program lead somewhere, where each break and continue of its functions stands in a loop or a switch, and each label directly in a switch.
pub fn expanded_pieces_fit()
    ensures { ExpandedPiecesFit }
{}

/// The arrays of an expanded program have lengths up to 65,536, where its objects have.
pub fn expanded_arrays_are_short()
    ensures { ExpandedArraysAreShort }
{}

/// A program without faults has its breaks, continues and labels where they may stand.
pub fn elaborated_jumps_fit()
    ensures { ElaboratedJumpsFit }
{}

/// The objects of a program have lengths up to 65,536.
pub fn elaborated_lengths_fit()
    ensures { ElaboratedLengthsFit }
{}

/// The loops of a program that the grammar derives begin with declarations and actions.
pub fn grammar_begins_loops()
    ensures { GrammarBeginsLoops }
{}

/// The tree that an expanded program is lowered to is well formed.
pub fn expanded_is_well_formed()
    ensures { ExpandedIsWellFormed }
{}

/// The expansion of each program that the grammar derives and that has no fault has jumps that lead somewhere, and short arrays, and is lowered to a well formed tree.
pub fn checked_programs_fit()
    ensures { CheckedProgramsFit }
{}
