//! Laws of lowered trees.
ghost use Rattle.pass_runs.specs.LowerRuns.LoweredTrees.{LoweredIsOrdered, LoweredIsWellFormed};

/// In each block of a lowered tree operands come before their uses, and each operation that C may give no value notes its place.
pub fn lowered_is_ordered()
    ensures { LoweredIsOrdered }
{}

/// Each block of a lowered tree is left as what stands behind it asks, where the jumps of the pieces lead somewhere.
pub fn lowered_is_well_formed()
    ensures { LoweredIsWellFormed }
{}
