//! Laws of the objects of a source.
ghost use Rattle.program_sizes.specs.FewObjects.{FewObjects};

/// No function of a source has more objects than a source has tokens.
pub fn sources_have_few_objects()
    ensures { FewObjects }
{}
