//! A circuit as a part of a larger one: its renamed wires have the values that they have alone. `chain_link` puts its circuits together from such parts.

ghost use Rattle.chain_box.specs.StageEmbedding.{PartsFit, PartsSeeTheSame};

/// The renamed wires are valid.
pub fn parts_fit()
    ensures { PartsFit }
{}

/// Atoms, registers and memories of a part have the values that they have alone, whatever wires follow.
pub fn parts_see_the_same()
    ensures { PartsSeeTheSame }
{}
