//! Laws of the types of a source's tokens.
ghost use Rattle.source_answers.specs.SourceRuns.SourceTypes.{SourceTokensHaveTypes, SourcesArraysHaveLengths, SourcesHaveFinePieces, SourcesHaveTypedPieces};

/// The constants and type names of a source have types of C, also behind the replacement of words.
pub fn source_tokens_have_types()
    ensures { SourceTokensHaveTypes }
{}

/// So the pieces of a program without faults are as all passes on blocks ask, whatever its source is.
pub fn sources_have_fine_pieces()
    ensures { SourcesHaveFinePieces }
{}

/// Their expressions have the types of what they name, and their labels are words of the types of their switches.
pub fn sources_have_typed_pieces()
    ensures { SourcesHaveTypedPieces }
{}

/// Each array of such a program has a length at least.
pub fn sources_arrays_have_lengths()
    ensures { SourcesArraysHaveLengths }
{}
