//! Laws of the programs that sources are compiled to.
ghost use Rattle.source_validity.specs.AcceptedPrograms.{AcceptedSourcesCompileToValid, SourcesAreLoweredToFew};

/// The flat program that each source without faults is compiled to is valid and small, where it weighs no more than it may once its calls are expanded.
pub fn accepted_sources_compile_to_valid()
    ensures { AcceptedSourcesCompileToValid }
{}

/// What a source without faults is lowered to has few operations, blocks and variables for what it weighs.
pub fn sources_are_lowered_to_few()
    ensures { SourcesAreLoweredToFew }
{}
