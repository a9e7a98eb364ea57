//! Laws of the sizes of flat programs.
ghost use Rattle.program_sizes.specs.CompiledSizes.{CompiledProgramsAreSmall, SmallProgramsHaveNumbers};

/// The flat program of pieces that weigh no more than they may has few nodes, and none of them many operations.
pub fn compiled_programs_are_small()
    ensures { CompiledProgramsAreSmall }
{}

/// A small program has a number for each node, and for each operation of a node.
pub fn small_programs_have_numbers()
    ensures { SmallProgramsHaveNumbers }
{}
