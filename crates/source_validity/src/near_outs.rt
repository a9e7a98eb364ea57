//! Laws of how far back outs and tests go.
ghost use Rattle.source_validity.specs.NearOuts.{LaidOutOutsAreNear, SourcesHaveNearOuts};

/// In the flat program that pieces are compiled to no out or test is of an iteration long before.
pub fn laid_out_outs_are_near()
    ensures { LaidOutOutsAreNear }
{}

/// So it is in each that a source without faults is compiled to.
pub fn sources_have_near_outs()
    ensures { SourcesHaveNearOuts }
{}
