//! Laws of the points of expanded programs.
ghost use Rattle.expanded_pieces.specs.ApartPoints.{ExpandedPointsDiffer, GrammarPlacesDiffer, SourcePlacesDiffer, SourcePointsDiffer};

/// No point stands twice among the marks and ends of an expanded program, where the places of each function differ.
pub fn expanded_points_differ()
    ensures { ExpandedPointsDiffer }
{}

/// The places of each function of a program that the grammar derives differ, where those of its tokens do.
pub fn grammar_places_differ()
    ensures { GrammarPlacesDiffer }
{}

/// The tokens of a source have different places, also those that words are replaced by.
pub fn source_places_differ()
    ensures { SourcePlacesDiffer }
{}

/// No point stands twice in the expansion of a program that a source is.
pub fn source_points_differ()
    ensures { SourcePointsDiffer }
{}
