//! Laws of the subscripts in expanded pieces.
ghost use Rattle.typed_pieces.specs.FittingSubscripts.{ExpandedSubscriptsFit};

/// Each element of an expanded program has as many subscripts as its array has dimensions, where each of its core program has.
pub fn expanded_subscripts_fit()
    ensures { ExpandedSubscriptsFit }
{}
